//! Parts of texts.

use base_lists::{Span, text_at};
use std::test::Fail;

#[test]
fn parts_of_a_text(rt: HostRuntime) -> Result<(), Fail> {
    let text = "list of bäume";
    let word = Span { start: 5, len: 2 };
    assert_eq!(rt; text_at(text, word), "of");
    // Bytes 9 and 10 are one character, which no part cuts.
    let half = Span { start: 8, len: 2 };
    assert_eq!(rt; text_at(text, half), "");
    Ok(())
}
