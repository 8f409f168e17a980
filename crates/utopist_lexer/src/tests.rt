// Texts whose tokens, or whose first fault, were written down by hand.
use crate::{Kind, LexFault, LexKind, Lexer, Mark, Word};
use priz_base::Place;
use std::alloc::{AllocError, Global};
use std::test::Fail;

const FAULTS: [(&str, u32, u32, u32, LexKind); 45] = [
    // numbers
    ("$", 0, 1, 1, LexKind::BadNumber),
    ("$x", 0, 1, 1, LexKind::BadNumber),
    ("$ 1", 0, 1, 1, LexKind::BadNumber),
    ("$1x", 0, 1, 1, LexKind::BadNumber),
    ("$1.", 0, 1, 1, LexKind::BadNumber),
    ("$1.(i)", 0, 1, 1, LexKind::BadNumber),
    ("$1.x", 0, 1, 1, LexKind::BadNumber),
    ("$1.2.", 0, 1, 1, LexKind::BadNumber),
    ("$1.2x", 0, 1, 1, LexKind::BadNumber),
    ("$1. 2", 0, 1, 1, LexKind::BadNumber),
    ("1.5", 0, 1, 1, LexKind::BadNumber),
    ("2x", 0, 1, 1, LexKind::BadNumber),
    ("1_", 0, 1, 1, LexKind::BadNumber),
    ("1\u{e9}", 0, 1, 1, LexKind::BadNumber),
    ("1\u{663}", 0, 1, 1, LexKind::BadNumber),
    ("1 .5 3.", 5, 1, 6, LexKind::BadNumber),
    ("9223372036854775808x", 0, 1, 1, LexKind::BadNumber),
    ("9223372036854775808", 0, 1, 1, LexKind::NumberTooWide),
    (
        "9223372036854775807 9223372036854775808",
        20,
        1,
        21,
        LexKind::NumberTooWide,
    ),
    ("$9223372036854775808", 0, 1, 1, LexKind::NumberTooWide),
    ("$1.9223372036854775808", 0, 1, 1, LexKind::NumberTooWide),
    ("$9223372036854775808.2", 0, 1, 1, LexKind::NumberTooWide),
    ("0009223372036854775808", 0, 1, 1, LexKind::NumberTooWide),
    (
        "x=99999999999999999999999999;",
        2,
        1,
        3,
        LexKind::NumberTooWide,
    ),
    // characters that begin no token
    (">", 0, 1, 1, LexKind::BadChar),
    ("a > b", 2, 1, 3, LexKind::BadChar),
    ("<=>", 2, 1, 3, LexKind::BadChar),
    ("->>", 2, 1, 3, LexKind::BadChar),
    ("is;isle;!", 8, 1, 9, LexKind::BadChar),
    ("_a1\"", 3, 1, 4, LexKind::BadChar),
    ("\0", 0, 1, 1, LexKind::BadChar),
    ("\u{b}x", 0, 1, 1, LexKind::BadChar),
    ("x\u{a0}y", 1, 1, 2, LexKind::BadChar),
    ("\u{feff}a", 0, 1, 1, LexKind::BadChar),
    ("a\u{feff}", 1, 1, 2, LexKind::BadChar),
    ("\u{663}", 0, 1, 1, LexKind::BadChar),
    // lines and columns
    ("\n>", 1, 2, 1, LexKind::BadChar),
    ("\t>", 1, 1, 2, LexKind::BadChar),
    ("\r\n>", 2, 2, 1, LexKind::BadChar),
    ("a\rb >", 4, 1, 5, LexKind::BadChar),
    ("\u{e9} >", 3, 1, 3, LexKind::BadChar),
    ("\u{4e2d}\u{4e2d}>", 6, 1, 3, LexKind::BadChar),
    ("a\u{301}>", 3, 1, 3, LexKind::BadChar),
    ("# \u{e9}\n >", 6, 2, 2, LexKind::BadChar),
    ("# a\n\n\n  @ 1x", 8, 4, 3, LexKind::BadChar),
];

/// The first fault of a short text.
fn first_fault(text: &str) -> Option<LexFault> {
    if text.len() > 1000 {
        return None;
    }
    let mut lexer = Lexer::new(text);
    for _ in 0..1000 {
        match lexer.next() {
            Ok(token) if token.kind == Kind::End => return None,
            Ok(_) => (),
            Err(_) => return lexer.next().err(),
        }
    }
    None
}

#[test]
fn names_each_fault_at_its_place(rt: HostRuntime) {
    for (text, at, line, col, kind) in FAULTS {
        let fault = LexFault {
            place: Place { at, line, col },
            kind,
        };
        assert_eq!(rt; first_fault(text), Some(fault), "{text}");
    }
    for text in [
        "",
        " \t\r\n",
        "# no line feed $",
        "a # b\n# c",
        "x.y [ ] { } 7",
    ] {
        assert_eq!(rt; first_fault(text), None, "{text}");
    }
}

const TOKENS: [(&str, &[(Kind, u32)]); 6] = [
    (
        "eq a1=2;",
        &[
            (Kind::Word(Word::Eq), 0),
            (Kind::Name, 3),
            (Kind::Mark(Mark::Equal), 5),
            (Kind::Number(2), 6),
            (Kind::Mark(Mark::Semicolon), 7),
            (Kind::End, 8),
            (Kind::End, 8),
        ],
    ),
    (
        "isle<=<->-$07.10# end",
        &[
            (Kind::Name, 0),
            (Kind::Mark(Mark::AtMost), 4),
            (Kind::Mark(Mark::Less), 6),
            (Kind::Mark(Mark::Arrow), 7),
            (Kind::Mark(Mark::Minus), 9),
            (Kind::Sub { k: 7, out: 10 }, 10),
            (Kind::End, 21),
        ],
    ),
    (
        "$1.3(i)$1.0 $1",
        &[
            (Kind::Sub { k: 1, out: 3 }, 0),
            (Kind::Mark(Mark::OpenRound), 4),
            (Kind::Name, 5),
            (Kind::Mark(Mark::CloseRound), 6),
            (Kind::Sub { k: 1, out: 0 }, 7),
            (Kind::Sub { k: 1, out: 1 }, 12),
            (Kind::End, 14),
        ],
    ),
    (
        "9223372036854775807#\niter_ iter",
        &[
            (Kind::Number(9223372036854775807), 0),
            (Kind::Name, 21),
            (Kind::Word(Word::Iter), 27),
            (Kind::End, 31),
        ],
    ),
    (
        "concept is var numeric eq rel compute given find if then else sum prod iter",
        &[
            (Kind::Word(Word::Concept), 0),
            (Kind::Word(Word::Is), 8),
            (Kind::Word(Word::Var), 11),
            (Kind::Word(Word::Numeric), 15),
            (Kind::Word(Word::Eq), 23),
            (Kind::Word(Word::Rel), 26),
            (Kind::Word(Word::Compute), 30),
            (Kind::Word(Word::Given), 38),
            (Kind::Word(Word::Find), 44),
            (Kind::Word(Word::If), 49),
            (Kind::Word(Word::Then), 52),
            (Kind::Word(Word::Else), 57),
            (Kind::Word(Word::Sum), 62),
            (Kind::Word(Word::Prod), 66),
            (Kind::Word(Word::Iter), 71),
            (Kind::End, 75),
        ],
    ),
    (
        "()[]{}:;,.=<<=+-*/->",
        &[
            (Kind::Mark(Mark::OpenRound), 0),
            (Kind::Mark(Mark::CloseRound), 1),
            (Kind::Mark(Mark::OpenSquare), 2),
            (Kind::Mark(Mark::CloseSquare), 3),
            (Kind::Mark(Mark::OpenCurly), 4),
            (Kind::Mark(Mark::CloseCurly), 5),
            (Kind::Mark(Mark::Colon), 6),
            (Kind::Mark(Mark::Semicolon), 7),
            (Kind::Mark(Mark::Comma), 8),
            (Kind::Mark(Mark::Dot), 9),
            (Kind::Mark(Mark::Equal), 10),
            (Kind::Mark(Mark::Less), 11),
            (Kind::Mark(Mark::AtMost), 12),
            (Kind::Mark(Mark::Plus), 14),
            (Kind::Mark(Mark::Minus), 15),
            (Kind::Mark(Mark::Star), 16),
            (Kind::Mark(Mark::Slash), 17),
            (Kind::Mark(Mark::Arrow), 18),
            (Kind::End, 20),
        ],
    ),
];

#[test]
fn takes_the_longest_token(rt: HostRuntime) {
    for (text, tokens) in TOKENS {
        if text.len() < 1000 {
            let mut lexer = Lexer::new(text);
            for (kind, at) in tokens {
                let token = lexer.next().expect(&rt, "a token");
                assert_eq!(rt; token.kind, *kind, "{text}");
                assert_eq!(rt; token.at, *at, "{text}");
            }
        }
    }
}

/// A name of so many letters of two bytes, and one of one byte.
fn long_name(alloc: Global, letters: usize) -> Result<String, AllocError> {
    let mut text = String::from_str(alloc, "a")?;
    for _ in 0..letters {
        text.push('\u{e9}')?;
    }
    Ok(text)
}

#[test]
fn counts_the_bytes_of_a_name(rt: HostRuntime) -> Result<(), Fail> {
    let longest = long_name(rt.alloc(), 127)?;
    assert_eq!(rt; first_fault(longest.as_str()), None);
    let longer = long_name(rt.alloc(), 128)?;
    let fault = first_fault(longer.as_str()).ok_or("no fault")?;
    assert_eq!(rt; fault.kind, LexKind::NameTooLong);
    Ok(())
}
