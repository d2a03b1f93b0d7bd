ghost use Rattle.std.specs.Prelude.{◌^◌, ◌≤◌, length};
ghost use Rattle.le_layout.specs.Layout.{IsLayout};

use crate::{Layout, Line, Lines, Token, Tokens, scan};
use le_base::Stop;
use std::alloc::{AllocError, Global};
use std::test::Fail;

// A layout as a text: each line with its number, its indent and its tokens, and each of these with its
// kind, its place and its text.
fn listing(alloc: Global, layout: &Layout) -> Result<String, AllocError>
    requires { IsLayout layout.now }
{
    let mut out = String::new(alloc);
    let tokens = layout.tokens.as_slice();
    for line in layout.lines.as_slice() {
        let Line {
            number,
            indent,
            from,
            to,
        } = *line;
        write!(out, "{number}+{indent} {from}..{to}:")?;
        for at in from..to {
            if (at as usize) < tokens.len() {
                let Token {
                    kind,
                    line,
                    column,
                    ..
                } = tokens[at as usize];
                let word = layout.word(at);
                write!(out, " {kind:?} {line}:{column} {word}")?;
            }
        }
        out.push_str("\n")?;
    }
    Ok(out)
}

// What a text is refused with, and where; zeros where it isn't.
fn fault(alloc: Global, bytes: &[u8]) -> [u32; 3]
    requires { length bytes.now ≤ 2 ^ 28 }
{
    match scan(alloc, bytes) {
        Ok(_) => [0, 0, 0],
        Err(Stop::Refused(refusal)) => [refusal.code.number() as u32, refusal.line, refusal.column],
        Err(Stop::Memory) => [100, 0, 0],
    }
}

const WORDS: [(&str, &str); 13] = [
    ("", ""),
    (
        "a..b",
        "1+0 0..4: Word 1:1 a Stop 1:2 . Stop 1:3 . Word 1:4 b\n",
    ),
    ("Bob.Ann.", "1+0 0..2: Word 1:1 Bob.Ann Stop 1:8 .\n"),
    ("1.a a1,2b", "1+0 0..2: Word 1:1 1.a Word 1:5 a1,2b\n"),
    ("a,b", "1+0 0..3: Word 1:1 a Comma 1:2 , Word 1:3 b\n"),
    (
        "1,a 5.",
        "1+0 0..5: Word 1:1 1 Comma 1:2 , Word 1:3 a Word 1:5 5 Stop 1:6 .\n",
    ),
    (
        "-0 007 2024-02-29 -1000000000000000000 1000000000000000000",
        "1+0 0..5: Word 1:1 -0 Word 1:4 007 Word 1:8 2024-02-29 Word 1:19 -1000000000000000000 Word 1:40 1000000000000000000\n",
    ),
    (
        "[1 | x]",
        "1+0 0..5: Open 1:1 [ Word 1:2 1 Bar 1:4 | Word 1:6 x Close 1:7 ]\n",
    ),
    (
        "2024-01 7th --5",
        "1+0 0..3: Word 1:1 2024-01 Word 1:9 7th Word 1:13 --5\n",
    ),
    (
        "+5 1-2 2024-01-01x",
        "1+0 0..3: Word 1:1 +5 Word 1:4 1-2 Word 1:8 2024-01-01x\n",
    ),
    ("caf\u{e9} is", "1+0 0..2: Word 1:1 caf\u{e9} Word 1:6 is\n"),
    (
        "it's R&D/x \u{a3}5",
        "1+0 0..3: Word 1:1 it's Word 1:6 R&D/x Word 1:12 \u{a3}5\n",
    ),
    (
        "a\u{a0}b_c \u{ff15}.\u{ff15}",
        "1+0 0..3: Word 1:1 a Word 1:3 b_c Word 1:7 \u{ff15}.\u{ff15}\n",
    ),
];

const LINES: [(&str, &str); 12] = [
    (" \n\n", ""),
    (
        "the templates are:\n    *a person* is happy.\n",
        "1+0 0..4: Word 1:1 the Word 1:5 templates Word 1:15 are Colon 1:18 :\n2+4 4..11: Star 2:5 * Word 2:6 a Word 2:8 person Star 2:14 * Word 2:16 is Word 2:19 happy Stop 2:24 .\n",
    ),
    (
        "\nBob\n  \n Ann",
        "2+0 0..1: Word 2:1 Bob\n4+1 1..2: Word 4:2 Ann\n",
    ),
    (
        "Bob\r\nAnn\r\n",
        "1+0 0..1: Word 1:1 Bob\n2+0 1..2: Word 2:1 Ann\n",
    ),
    (
        "\tBob\n  \tAnn",
        "1+4 0..1: Word 1:5 Bob\n2+4 1..2: Word 2:5 Ann\n",
    ),
    ("\u{feff}Bob", "1+0 0..1: Word 1:1 Bob\n"),
    ("% only, 5.5 \u{feff}\u{0}\n a", "2+1 0..1: Word 2:2 a\n"),
    ("a.% c", "1+0 0..2: Word 1:1 a Stop 1:2 .\n"),
    ("\"a\"%c", "1+0 0..1: Quote 1:1 a\n"),
    (
        "\"a. b\", c",
        "1+0 0..3: Quote 1:1 a. b Comma 1:7 , Word 1:9 c\n",
    ),
    ("x\"\"y", "1+0 0..3: Word 1:1 x Quote 1:2  Word 1:4 y\n"),
    ("\"50% [5]\u{a0}\"", "1+0 0..1: Quote 1:1 50% [5]\u{a0}\n"),
];

const FAULTS: [(&str, [u32; 3]); 26] = [
    ("a = b", [3, 1, 3]),
    ("= 5", [3, 1, 1]),
    ("a%b", [3, 1, 2]),
    ("a\rb\n", [3, 1, 2]),
    ("a\r", [3, 1, 2]),
    ("% a\rb\n", [3, 1, 4]),
    ("\"a b", [4, 1, 1]),
    ("x \"a\tb\nc\"", [4, 1, 3]),
    ("x \"a\tb\"", [3, 1, 5]),
    ("\"a\u{7f}\"", [3, 1, 3]),
    ("a\u{feff}", [3, 1, 2]),
    ("\u{feff}\u{feff}", [3, 1, 1]),
    ("\t=", [3, 1, 5]),
    ("abc\t=", [3, 1, 5]),
    ("abcd\t=", [3, 1, 9]),
    ("\u{e9}\u{a0}=", [3, 1, 3]),
    ("\"a\rb\"", [3, 1, 3]),
    ("\"a\" = \"", [3, 1, 5]),
    ("]5.5%", [24, 1, 2]),
    ("a\n 1,000", [24, 2, 2]),
    ("thing 5.5 =", [24, 1, 7]),
    ("1000000000000000001", [24, 1, 1]),
    ("x -1000000000000000001", [24, 1, 3]),
    ("2023-02-30", [23, 1, 1]),
    ("% 2023-02-29\n2023-02-29", [23, 2, 1]),
    ("0000-01-01 5.5", [23, 1, 1]),
];

#[test]
fn words(rt: HostRuntime) -> Result<(), Fail> {
    for (text, expected) in WORDS {
        let bytes = text.as_bytes();
        if bytes.len() <= 1000 {
            let layout = scan(rt.alloc(), bytes)?;
            assert_eq!(rt; listing(rt.alloc(), &layout)?.as_str(), expected);
        }
    }
    Ok(())
}

#[test]
fn lines(rt: HostRuntime) -> Result<(), Fail> {
    for (text, expected) in LINES {
        let bytes = text.as_bytes();
        if bytes.len() <= 1000 {
            let layout = scan(rt.alloc(), bytes)?;
            assert_eq!(rt; listing(rt.alloc(), &layout)?.as_str(), expected);
        }
    }
    Ok(())
}

#[test]
fn faults(rt: HostRuntime) -> Result<(), Fail> {
    for (text, expected) in FAULTS {
        let bytes = text.as_bytes();
        if bytes.len() <= 1000 {
            assert_eq!(rt; fault(rt.alloc(), bytes), expected);
        }
    }
    Ok(())
}

#[test]
fn bad_bytes(rt: HostRuntime) -> Result<(), Fail> {
    assert_eq!(rt; fault(rt.alloc(), b"ab\n\tc\xff"), [2, 2, 6]);
    assert_eq!(rt; fault(rt.alloc(), b"\xef\xbb\xbfa\xff"), [2, 1, 2]);
    assert_eq!(rt; fault(rt.alloc(), b"= a\r\xc3"), [2, 1, 5]);
    assert_eq!(rt; fault(rt.alloc(), b"% \"\xff"), [2, 1, 4]);
    Ok(())
}

#[test]
fn tokens_and_lines_of_vectors(rt: HostRuntime) -> Result<(), Fail> {
    let layout = scan(rt.alloc(), b"Bob is\n\nAnn")?;
    assert_eq!(rt; layout.tokens.as_slice().len(), 3);
    assert_eq!(rt; layout.word(1), "is");
    assert_eq!(rt; layout.token(2).column, 1);
    assert!(rt; layout.has_word(1, "IS"));
    let Layout {
        text,
        tokens,
        lines,
    } = layout;
    assert_eq!(rt; text.as_str(), "Bob is\n\nAnn");
    assert_eq!(rt; Tokens::from_vec(tokens.into_vec()).as_slice().len(), 3);
    assert_eq!(rt; Lines::from_vec(lines.into_vec()).as_slice().len(), 2);
    Ok(())
}
