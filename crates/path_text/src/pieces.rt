//! The pieces that steps are made of: characters, words and closing marks.
ghost use Rattle.std.specs.Prelude.{◌≡◌, ◌≤◌, [], ◌∷◌, length, option_map};
ghost use Rattle.std.specs.Char.{is_ascii_digit};
ghost use Rattle.std.specs.List.{prefix_len};
ghost use Rattle.hex.specs.Hex.{is_hex_digit};
ghost use Rattle.path_text.specs.Texts.{is_name_character as is_name_character_of};
ghost use Rattle.path_text.specs.Reading.{begins_name as begins_name_of, behind_word as behind_word_of};

/// A letter or `_`.
fn is_word_start(byte: u8) -> bool
    ensures { result ≡ begins_name_of (byte ∷ []) }
{
    byte.is_ascii_alphabetic() || byte == b'_'
}

/// A letter, a digit or `_`.
fn is_name_character(byte: u8) -> bool
    ensures { result ≡ is_name_character_of byte }
{
    is_word_start(byte) || byte.is_ascii_digit()
}

/// Whether a name begins here: with a letter or `_`.
pub fn begins_name(text: &[u8]) -> bool
    ensures { result ≡ begins_name_of text.now }
{
    match text.first() {
        Some(byte) => is_word_start(*byte),
        None => false,
    }
}

/// The number of characters of names that the text begins with.
pub fn name_len(text: &[u8]) -> usize
    ensures len { result ≡ prefix_len is_name_character_of text.now }
    ensures fits { result ≤ length text.now }
{
    text.iter().take_while(|c| is_name_character(**c)).count()
}

/// The number of decimal digits that the text begins with.
pub fn digits_len(text: &[u8]) -> usize
    ensures len { result ≡ prefix_len is_ascii_digit text.now }
    ensures fits { result ≤ length text.now }
{
    text.iter().take_while(|c| c.is_ascii_digit()).count()
}

/// The number of hexadecimal digits that the text begins with.
pub fn hex_digits_len(text: &[u8]) -> usize
    ensures len { result ≡ prefix_len is_hex_digit text.now }
    ensures fits { result ≤ length text.now }
{
    text.iter().take_while(|c| c.is_ascii_hexdigit()).count()
}

/// What is behind a word that the text begins with.
pub fn behind_word<'a>(word: &[u8], text: &'a [u8]) -> Option<&'a [u8]>
    ensures { option_map (λ x. x.now) result ≡ behind_word_of word.now text.now }
{
    text.strip_prefix(word)
}
