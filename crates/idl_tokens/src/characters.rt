//! The characters that tokens are made of.
ghost use Rattle.std.specs.Prelude.{◌≡◌, ◌==◌, ◌||◌, ◌≤◌, length};
ghost use Rattle.std.specs.List.{prefix_len};
ghost use Rattle.idl_tokens.specs.Characters.{is_space as is_space_of, is_digit as is_digit_of, is_hex_digit as is_hex_digit_of, is_letter as is_letter_of, is_word_start as is_word_start_of, is_word_character as is_word_character_of, is_mark as is_mark_of, is_in_line, is_in_literal, begins_with as begins_with_of};

/// Space, tab, carriage return and newline.
pub fn is_space(c: u8) -> bool
    ensures { result ≡ is_space_of c }
{
    c == b' ' || c == b'\t' || c == b'\r' || c == b'\n'
}

/// A decimal digit.
pub fn is_digit(c: u8) -> bool
    ensures { result ≡ is_digit_of c }
{
    b'0' <= c && c <= b'9'
}

/// A hexadecimal digit, of either case.
pub fn is_hex_digit(c: u8) -> bool
    ensures { result ≡ is_hex_digit_of c }
{
    is_digit(c) || (b'a' <= c && c <= b'f') || (b'A' <= c && c <= b'F')
}

/// An ASCII letter.
pub fn is_letter(c: u8) -> bool
    ensures { result ≡ is_letter_of c }
{
    (b'A' <= c && c <= b'Z') || (b'a' <= c && c <= b'z')
}

/// What a word begins with: a letter or `_`.
pub fn is_word_start(c: u8) -> bool
    ensures { result ≡ is_word_start_of c }
{
    is_letter(c) || c == b'_'
}

/// What stands in a word: letters, digits, `_` and `.`.
pub fn is_word_character(c: u8) -> bool
    ensures { result ≡ is_word_character_of c }
{
    is_letter(c) || is_digit(c) || c == b'_' || c == b'.'
}

/// One of `{ } ( ) < > [ ] : = , ; * @`.
pub fn is_mark(c: u8) -> bool
    ensures { result ≡ is_mark_of c }
{
    is_bracket(c) || c == b':' || c == b'=' || c == b',' || c == b';' || c == b'*' || c == b'@'
}

fn is_bracket(c: u8) -> bool
    ensures { result ≡ (c == 123 || c == 125 || c == 40 || c == 41 || c == 60 || c == 62 || c == 91 || c == 93) }
{
    c == b'{'
        || c == b'}'
        || c == b'('
        || c == b')'
        || c == b'<'
        || c == b'>'
        || c == b'['
        || c == b']'
}

/// Whether the text begins with this character.
pub fn begins_with(x: u8, text: &[u8]) -> bool
    ensures { result ≡ begins_with_of x text.now }
{
    match text.first() {
        Some(c) => *c == x,
        None => false,
    }
}

/// The number of characters up to the end of the word.
#[tactic(auto, using(crate::proofs::Fits::fitting))]
pub fn word_len(text: &[u8]) -> usize
    ensures len { result ≡ prefix_len is_word_character_of text.now }
    ensures fits { result ≤ length text.now }
{
    text.iter().take_while(|c| is_word_character(**c)).count()
}

/// The number of decimal digits that the text begins with.
#[tactic(auto, using(crate::proofs::Fits::fitting))]
pub fn digits_len(text: &[u8]) -> usize
    ensures len { result ≡ prefix_len is_digit_of text.now }
    ensures fits { result ≤ length text.now }
{
    text.iter().take_while(|c| is_digit(**c)).count()
}

/// The number of hexadecimal digits that the text begins with.
#[tactic(auto, using(crate::proofs::Fits::fitting))]
pub fn hex_digits_len(text: &[u8]) -> usize
    ensures len { result ≡ prefix_len is_hex_digit_of text.now }
    ensures fits { result ≤ length text.now }
{
    text.iter().take_while(|c| is_hex_digit(**c)).count()
}

/// The number of characters before the end of the line.
#[tactic(auto, using(crate::proofs::Fits::fitting))]
pub fn line_len(text: &[u8]) -> usize
    ensures len { result ≡ prefix_len is_in_line text.now }
    ensures fits { result ≤ length text.now }
{
    text.iter().take_while(|c| **c != b'\n').count()
}

/// The number of characters before the next such quote or the end of the line.
#[tactic(auto, using(crate::proofs::Fits::fitting))]
pub fn literal_len(quote: u8, text: &[u8]) -> usize
    ensures len { result ≡ prefix_len (is_in_literal quote) text.now }
    ensures fits { result ≤ length text.now }
{
    text.iter()
        .take_while(|c| **c != quote && **c != b'\n')
        .count()
}
