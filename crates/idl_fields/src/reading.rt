//! Reading by the small parts of the grammar.

ghost use Rattle.std.specs.Prelude.{◌≡◌, ℕ, List};
ghost use Rattle.idl_tokens.specs.Spans.{tok_of, toks};
ghost use Rattle.exact_reading.specs.declared.stop.ReadError.TheVariants as errors;
ghost use Rattle.idl_grammar.specs.Grammar.{token as token_that, line_fault as stop_of};
ghost use Rattle.exact_reading.specs.Reading.{Gives};
ghost use Rattle.idl_grammar.specs.Run.{run};
ghost use Rattle.name_index.specs.Names.{is_among as is_among_of};
ghost use Rattle.idl_profile.specs.Judged.{is_mark as is_mark_of, is_word as is_word_of, is_sep as is_sep_of, a_mark, taken};
ghost use Rattle.idl_profile.specs.Text.{sep};

use base_lists::text_at;
use idl_grammar::{Fault, LineFault, ReadError};
use idl_tokens::{Placed, Token};

/// Where tokens are wanted after the last.
pub fn none_left() -> ReadError
    ensures { result ≡ errors.Stop (stop_of Fault.Syntax 0) }
{
    ReadError::Stop(LineFault {
        fault: Fault::Syntax,
        line: 0,
    })
}

/// A fault of this token.
pub fn wrong(fault: Fault, placed: &Placed) -> ReadError
    ensures { result ≡ errors.Stop (stop_of fault placed.now.line) }
{
    ReadError::Stop(LineFault {
        fault,
        line: placed.line,
    })
}

pub fn is_mark(mark: u8, token: Token) -> bool
    ensures { (text : List ℕ) → result ≡ is_mark_of mark (tok_of text token) }
{
    match token {
        Token::Mark(m) => m == mark,
        _ => false,
    }
}

pub fn is_word(text: &str, x: &str, token: Token) -> bool
    ensures { result ≡ is_word_of x.now (tok_of text.now token) }
{
    match token {
        Token::Word(w) => text_at(text, w) == x,
        _ => false,
    }
}

fn is_sep(token: Token) -> bool
    ensures { (text : List ℕ) → result ≡ is_sep_of (tok_of text token) }
{
    is_mark(b',', token) || is_mark(b';', token)
}

/// A mark.
pub fn read_mark(mark: u8, tokens: &[Placed]) -> Result<&[Placed], ReadError>
    ensures { (text : List ℕ) → Gives (λ x. (tt, toks text x.now)) result (run (token_that (a_mark mark)) (toks text tokens.now)) }
{
    let Some((first, rest)) = tokens.split_first() else {
        return Err(none_left());
    };
    if is_mark(mark, first.token) {
        Ok(rest)
    } else {
        Err(wrong(Fault::Syntax, first))
    }
}

/// A comma or a semicolon, where there is one.
pub fn read_sep(tokens: &[Placed]) -> Result<&[Placed], ReadError>
    ensures { (text : List ℕ) → Gives (λ x. (tt, toks text x.now)) result (run sep (toks text tokens.now)) }
{
    let Some((first, rest)) = tokens.split_first() else {
        return Err(none_left());
    };
    if is_sep(first.token) {
        Ok(rest)
    } else {
        Ok(tokens)
    }
}
