//! Parts of texts, by where they stand.

ghost use Rattle.std.specs.Prelude.{◌≡◌};
ghost use Rattle.base_lists.specs.Spans.{text_at as text_at_span};

/// Where a part of a text stands: its first byte, and the number of its bytes.
#[derive(Clone, Copy, Debug)]
pub struct Span {
    pub start: u32,
    pub len: u32,
}

/// The part of the text at a span, none where the text ends before, or where a character would be cut.
pub fn text_at(text: &str, span: Span) -> &str
    ensures { result.now ≡ text_at_span text.now span }
{
    let start = span.start as usize;
    let end = start + span.len as usize;
    text.get(start..end).unwrap_or("")
}
