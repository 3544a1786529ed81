// The words of a command.
ghost use Rattle.std.specs.Prelude.{◌≡◌, map, string_bytes, Ok, Err, IsErrAnd, MatchOption};
ghost use Rattle.std.specs.Char.{is_ascii_digit};
ghost use Rattle.std.specs.List.{list_all};
ghost use Rattle.frozen_cli.specs.Stages.{StageGives};
ghost use Rattle.frozen_cli.specs.Refusal.{IsRefused, IsReading};
ghost use Rattle.frozen_cli.specs.Reply.{WordsStage, row_count as row_count_of};
ghost use Rattle.frozen_cli.specs.Words.{form_in};

use crate::refusal::{Failure, Refusal};

/// How the part at a path is shown.
#[derive(Clone, Copy, PartialEq, Eq)]
pub enum Showing {
    /// On one line.
    Whole,
    /// Each of its items, or of its pairs, on a line of its own.
    Items,
}

/// A command with its words.
#[derive(Clone, Copy)]
pub enum Command<'a> {
    /// `freeze DEF VALUE`
    Freeze {
        def: &'a str,
        value: &'a str,
    },
    /// `get DEF FILE PATH` or `scan DEF FILE PATH`
    Show {
        showing: Showing,
        def: &'a str,
        file: &'a str,
        path: &'a str,
    },
    /// `thaw DEF FILE`
    Thaw {
        def: &'a str,
        file: &'a str,
    },
    /// `check DEF FILE`
    Check {
        def: &'a str,
        file: &'a str,
    },
    /// `layout FILE`
    Layout {
        file: &'a str,
    },
    /// `upgrade FILE`
    Upgrade {
        file: &'a str,
    },
    /// `print DEF`
    Print {
        def: &'a str,
    },
    /// `demo N`, of 1 to 100,000 rows
    Demo {
        rows: u32,
    },
}

fn is_digit(byte: &u8) -> bool
    ensures { result ≡ is_ascii_digit byte.now }
{
    byte.is_ascii_digit()
}

// Whether the bytes are decimal digits.
fn are_digits(bytes: &[u8]) -> bool
    ensures { result ≡ list_all is_ascii_digit bytes.now }
{
    bytes.iter().all(|byte| is_digit(byte))
}

// The number of rows that a word of one to six decimal digits spells, from 1 to 100,000.
fn row_count(word: &str) -> Option<u32>
    ensures { result ≡ row_count_of word.now }
{
    if word.len() > 6 {
        return None;
    }
    if !are_digits(word.as_bytes()) {
        return None;
    }
    match word.parse::<u32>() {
        Ok(rows) if 1 <= rows && rows <= 100_000 => Some(rows),
        _ => None,
    }
}

// The demo of the rows that a word spells.
fn demo_of(word: &str) -> Result<Command<'_>, Failure>
    ensures { MatchOption (row_count_of word.now) (result ≡ Err (Failure.Refused Refusal.Usage))
        (λ n. result ≡ Ok (Command.Demo n)) }
{
    match row_count(word) {
        Some(rows) => Ok(Command::Demo { rows }),
        None => Err(Failure::Refused(Refusal::Usage)),
    }
}

/// The command that the words spell.
pub fn parse_words(words: &[String]) -> Result<Command<'_>, Failure>
    ensures gives { StageGives form_in (WordsStage (map string_bytes words.now)) result }
    ensures no_file { IsErrAnd result (IsRefused IsReading) → ⊥ }
{
    match words {
        [command, def] if command.as_str() == "print" => Ok(Command::Print { def: def.as_str() }),
        [command, file] if command.as_str() == "layout" => Ok(Command::Layout {
            file: file.as_str(),
        }),
        [command, file] if command.as_str() == "upgrade" => Ok(Command::Upgrade {
            file: file.as_str(),
        }),
        [command, rows] if command.as_str() == "demo" => demo_of(rows.as_str()),
        [command, def, value] if command.as_str() == "freeze" => Ok(Command::Freeze {
            def: def.as_str(),
            value: value.as_str(),
        }),
        [command, def, file] if command.as_str() == "thaw" => Ok(Command::Thaw {
            def: def.as_str(),
            file: file.as_str(),
        }),
        [command, def, file] if command.as_str() == "check" => Ok(Command::Check {
            def: def.as_str(),
            file: file.as_str(),
        }),
        [command, def, file, path] if command.as_str() == "get" => Ok(Command::Show {
            showing: Showing::Whole,
            def: def.as_str(),
            file: file.as_str(),
            path: path.as_str(),
        }),
        [command, def, file, path] if command.as_str() == "scan" => Ok(Command::Show {
            showing: Showing::Items,
            def: def.as_str(),
            file: file.as_str(),
            path: path.as_str(),
        }),
        _ => Err(Failure::Refused(Refusal::Usage)),
    }
}
