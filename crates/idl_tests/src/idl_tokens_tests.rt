//! Texts and their tokens, with the answers written by hand.
use base_lists::text_at;
use idl_tokens::{Token, split};
use std::alloc::Global;
use std::string::String;
use std::test::Fail;

// Each token by its kind, its place or value, and its line.
fn listed(alloc: Global, text: &str) -> Result<String, Fail> {
    let mut out = String::new(alloc);
    if text.len() < 1000 {
        for placed in &split(alloc, text)? {
            match placed.token {
                Token::Word(w) => write!(out, "word {}+{} ", w.start, w.len)?,
                Token::Number(Some(n)) => write!(out, "number {n} ")?,
                Token::Number(None) => write!(out, "great ")?,
                Token::Literal(x) => write!(out, "literal {}+{} ", x.start, x.len)?,
                Token::Mark(m) => write!(out, "mark {m} ")?,
                Token::Finish => write!(out, "end ")?,
                Token::Bad => write!(out, "bad ")?,
            }
            write!(out, "{};", placed.line)?;
        }
    }
    Ok(out)
}

#[test]
fn texts_split(rt: HostRuntime) -> Result<(), Fail> {
    let alloc = rt.alloc();
    let rows = [
        ("", "end 1;"),
        ("a.b\n_c", "word 0+3 1;word 4+2 2;end 2;"),
        ("0x", "number 0 1;word 1+1 1;end 1;"),
        ("0x1G", "number 1 1;word 3+1 1;end 1;"),
        ("0X1", "number 0 1;word 1+2 1;end 1;"),
        ("-0xfF +7 -5", "number -255 1;number 7 1;number -5 1;end 1;"),
        (
            "-9223372036854775808",
            "number -9223372036854775808 1;end 1;",
        ),
        (
            "9223372036854775807 9223372036854775808",
            "number 9223372036854775807 1;great 1;end 1;",
        ),
        ("0000000000000000000000000000000000001", "number 1 1;end 1;"),
        ("'a\"b' \"c'd\"", "literal 1+3 1;literal 7+3 1;end 1;"),
        (
            "/* a\n * b */ x // y\n# z\n;",
            "word 13+1 2;mark 59 4;end 4;",
        ),
        ("/*/ x */ y # z", "word 9+1 1;end 1;"),
        ("x\n/* a\n", "word 0+1 1;bad 2;"),
        ("'a\n'", "bad 1;"),
        ("+", "bad 1;"),
        ("1.5", "number 1 1;bad 1;"),
        ("\n\n x?y", "word 3+1 3;bad 3;"),
        (
            "{}()<>[]:=,;*@",
            "mark 123 1;mark 125 1;mark 40 1;mark 41 1;mark 60 1;mark 62 1;mark 91 1;mark 93 1;mark 58 1;mark 61 1;mark 44 1;mark 59 1;mark 42 1;mark 64 1;end 1;",
        ),
    ];
    for (text, want) in rows {
        assert_eq!(rt; listed(alloc, text)?.as_str(), want, "{text}");
    }
    Ok(())
}

#[test]
fn word_and_mark(rt: HostRuntime) -> Result<(), Fail> {
    let text = "list\n<";
    let tokens = split(rt.alloc(), text)?;
    assert_eq!(rt; tokens.len(), 3);
    match tokens[0].token {
        Token::Word(span) => assert_eq!(rt; text_at(text, span), "list"),
        _ => assert!(rt; false),
    }
    match tokens[1].token {
        Token::Mark(mark) => assert_eq!(rt; mark, b'<'),
        _ => assert!(rt; false),
    }
    assert_eq!(rt; tokens[1].line, 2);
    Ok(())
}
