// What is wanted of a file under a definition.
use crate::words::Showing;
use path_text::Path;

/// What is wanted of a file under a definition.
#[derive(Clone, Copy)]
pub enum Want<'a> {
    /// The part at a path.
    Part(Showing, &'a Path),
    /// The whole value in Compact Protocol.
    Whole,
    /// How great the value and the content are.
    Sizes,
}
