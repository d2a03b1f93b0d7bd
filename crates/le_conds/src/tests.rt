use crate::{
    Cond, CondKind, Conds, Nodes, conditions, least_decides, nothing_lost, one_tree, split_rule,
};
use le_base::{FoldKind, Refusal, Stop};
use le_layout::{Span, scan};
use std::alloc::{AllocError, Global};
use std::test::Fail;

// Conditions as a text: each with its tokens, or the number of those below it, and its first token.
fn told(alloc: Global, conds: &Conds) -> Result<String, AllocError> {
    let mut out = String::new(alloc);
    for cond in conds.nodes.as_slice() {
        let at = cond.at;
        match cond.kind {
            CondKind::Sentence(span) => {
                let Span { from, to } = span;
                write!(out, " {from}..{to}@{at}")?;
            }
            CondKind::And(count) => write!(out, " and {count}@{at}")?,
            CondKind::Or(count) => write!(out, " or {count}@{at}")?,
            CondKind::Not => write!(out, " not@{at}")?,
            CondKind::ForAll => write!(out, " for-all@{at}")?,
            CondKind::Gather { fold, result, name } => {
                let word = fold_word(fold);
                let Span { from, to } = result;
                write!(out, " {word} {from}..{to}")?;
                let Span { from, to } = name;
                write!(out, " {from}..{to}@{at}")?;
            }
        }
    }
    Ok(out)
}

fn fold_word(fold: FoldKind) -> &'static str {
    match fold {
        FoldKind::Sum => "sum",
        FoldKind::Number => "number",
        FoldKind::Greatest => "greatest",
    }
}

fn refused(alloc: Global, refusal: &Refusal) -> Result<String, AllocError> {
    let name = refusal.code.name();
    let line = refusal.line;
    let column = refusal.column;
    format!(in alloc; "{name} {line}:{column}")
}

// The conclusion and the conditions of a rule, or no conclusion and the conditions of a query.
fn parts(alloc: Global, text: &str, is_query: bool) -> Result<(Span, Option<Conds>), Stop> {
    let none = Span { from: 0, to: 0 };
    if text.len() > 1000 {
        return Ok((none, None));
    }
    let Ok(layout) = scan(alloc, text.as_bytes()) else {
        return Ok((none, None));
    };
    let to = layout.tokens.as_slice().len() as u32;
    if to == 0 {
        return Ok((none, None));
    }
    let sentence = Span { from: 0, to };
    if !is_query {
        return split_rule(alloc, &layout, sentence);
    }
    let conds = conditions(alloc, &layout, sentence)?;
    Ok((none, Some(conds)))
}

fn outcome(alloc: Global, text: &str, is_query: bool) -> Result<String, AllocError> {
    match parts(alloc, text, is_query) {
        Ok((conclusion, None)) => {
            let end = conclusion.to;
            format!(in alloc; "0..{end}")
        }
        Ok((conclusion, Some(conds))) => {
            let end = conclusion.to;
            let below = told(alloc, &conds)?;
            let shown = below.as_str();
            format!(in alloc; "0..{end}{shown}")
        }
        Err(Stop::Refused(refusal)) => refused(alloc, &refusal),
        Err(Stop::Memory) => String::from_str(alloc, "no memory"),
    }
}

const RULES: [(&str, &str); 28] = [
    ("a is b", "0..3"),
    ("a is b IF c is d", "0..3 4..7@4"),
    ("a if b if c", "0..1 2..5@2"),
    ("a\nif b\nand c d", "0..1 and 2@2 2..3@2 4..6@4"),
    (
        "a if\n  b\n  And\n c\n  and d",
        "0..1 and 3@2 2..3@2 4..5@4 6..7@6",
    ),
    ("a if b and c\n  d\nand e", "0..1 and 2@2 2..6@2 7..8@7"),
    ("  a\n   if b\n   and c", "0..1 and 2@2 2..3@2 4..5@4"),
    ("a if it is the case that b", "0..1 2..8@2"),
    ("a is the sum of each b if c", "0..7 8..9@8"),
    ("b is the sum of each c such that d", "0..10"),
    ("it is the case that a", "0..6"),
    ("a if b\n and c", "0..1 and 2@2 2..3@2 4..5@4"),
    ("a if b\nor c", "0..1 or 2@2 2..3@2 4..5@4"),
    (
        "a if b\nand c\n  or d\nand e",
        "0..1 and 3@2 2..3@2 or 2@4 4..5@4 6..7@6 8..9@8",
    ),
    (
        "a if b\n  or c\n    and d\n  or e\nand f",
        "0..1 and 2@2 or 3@2 2..3@2 and 2@4 4..5@4 6..7@6 8..9@8 10..11@10",
    ),
    ("a if it is not the case that b", "0..1 not@2 8..9@8"),
    (
        "a if it is\nnot the case that b\nand c",
        "0..1 and 2@2 not@2 8..9@8 10..11@10",
    ),
    (
        "a if it is not the case that\n b\n or c",
        "0..1 not@2 or 2@8 8..9@8 10..11@10",
    ),
    (
        "a if for all cases in which b\n and c\n    it is the case that d\n or e",
        "0..1 for-all@2 and 2@7 7..8@7 9..10@9 or 2@15 15..16@15 17..18@17",
    ),
    (
        "a if for all cases in which\n for all cases in which b\n it is the case that c\nit is the case that d",
        "0..1 for-all@2 for-all@7 12..13@12 18..19@18 24..25@24",
    ),
    (
        "t if b is the sum of each c such that d",
        "0..1 sum 2..3 8..9@2 11..12@11",
    ),
    (
        "t if is the sum of each such that d",
        "0..1 sum 2..2 7..7@2 9..10@9",
    ),
    ("t if b is the sum of each c", "0..1 2..9@2"),
    (
        "t if such that b is the number of each c such that d such that e",
        "0..1 number 2..5 10..11@2 13..17@13",
    ),
    (
        "t if b is the\ngreatest of each c such that\n d\n and e",
        "0..1 greatest 2..3 8..9@2 and 2@11 11..12@11 13..14@13",
    ),
    (
        "t if b is the sum of each c such that d\n or e",
        "0..1 sum 2..3 8..9@2 or 2@11 11..12@11 13..14@13",
    ),
    // the words of a marker after a connective and after an opener
    (
        "a if b\nand it is the case that c",
        "0..1 and 2@2 2..3@2 4..10@4",
    ),
    (
        "a if it is not the case that it is the case that b",
        "0..1 not@2 8..14@8",
    ),
];

const FAULTS: [(&str, &str); 46] = [
    ("if b", "BadIndent 1:1"),
    ("a if", "BadIndent 1:3"),
    ("a if\nand b", "BadIndent 1:3"),
    ("a if b\nand", "BadIndent 2:1"),
    ("a if b\n  and c\n and d", "BadIndent 3:2"),
    ("  a if b\n and c", "BadIndent 2:2"),
    ("a if it is not the case that", "BadIndent 1:6"),
    ("a if b is the\nsum of each c such that\nd", "BadIndent 1:6"),
    (" a if it is not the case that\nb", "BadIndent 1:7"),
    (
        "a if for all cases in which b\nit is the case that",
        "BadIndent 2:1",
    ),
    (
        "  a if for all cases in which\n c\n   and d\n  it is the case that e",
        "BadIndent 2:2",
    ),
    (
        "a\n    if for all cases in which\n  for all cases in which\n   b\n   it is the case that\n        c\n    it is the case that d",
        "BadIndent 3:3",
    ),
    (
        "a if for all cases in which\nit is the case that b",
        "BadIndent 1:6",
    ),
    ("a if it is not the case that\n and b", "BadIndent 2:2"),
    ("a if for all cases in which b", "BadIndent 1:6"),
    (
        "a if for all cases in which b\nit is the\ncase that c",
        "BadIndent 1:6",
    ),
    ("a if b\nit is the case that c", "BadIndent 2:1"),
    (
        " a if for all cases in which b\nit is the case that c",
        "BadIndent 2:1",
    ),
    (
        " a if for all cases in which b\n and c\n it is the case that d",
        "BadIndent 2:2",
    ),
    ("a if b\nand c\nor d", "MixedConnectives 3:1"),
    (
        "a if for all cases in which b\n or c\n and d\nit is the case that e",
        "MixedConnectives 3:2",
    ),
    ("it is not the case that a", "NegationScope 1:1"),
    ("for all cases in which a if b", "NegationScope 1:1"),
    (
        "a if it is not the case that b\n and c",
        "NegationScope 2:2",
    ),
    (
        "a if it is not the case that b is the sum of each c such that d",
        "NegationScope 1:30",
    ),
    (
        "a if for all cases in which b\nit is the case that it is not the case that c",
        "NegationScope 2:21",
    ),
    ("if b\nand c\nor d", "BadIndent 1:1"),
    ("it is not the case that a if", "NegationScope 1:1"),
    ("a if b\nand c\nor d\nand", "MixedConnectives 3:1"),
    ("a if b\nand\nor c", "BadIndent 2:1"),
    ("a if b\nand c\nor", "MixedConnectives 3:1"),
    (
        "a if it is not the case that b\n and c\nor d\nand e",
        "NegationScope 2:2",
    ),
    (
        "a if it is not the case that for all cases in which b\nit is the case that c",
        "NegationScope 1:30",
    ),
    (
        "a if for all cases in which b\n and c\n or d",
        "BadIndent 1:6",
    ),
    (" a if b\nand c\n or d\n and e", "BadIndent 2:1"),
    (
        "a if for all cases in which b\nor c\nit is the case that",
        "BadIndent 2:1",
    ),
    (
        "a if b\n it is the case that c\nand d\nor e",
        "BadIndent 2:2",
    ),
    // the place of an opener is its own first token, and not its connective
    (
        "a if b\nand it is not the case that\nand c",
        "BadIndent 2:5",
    ),
    (
        "a if b\nand c is the sum of each d such that",
        "BadIndent 2:5",
    ),
    ("a if b\nand for all cases in which c", "BadIndent 2:5"),
    // an opener that follows another one in its item takes no marker
    (
        "a if for all cases in which\n it is not the case that for all cases in which b\nit is the case that c",
        "NegationScope 2:26",
    ),
    // an item that is less deep than its block isn't compared
    ("  a if b\n  and c\n or d\n  and e", "BadIndent 3:2"),
    ("a if\nit is the case that b", "BadIndent 1:3"),
    (
        "a if for all cases in which b\nit is the case that\n and c",
        "BadIndent 3:2",
    ),
    (
        "a if b is the sum of each c such that\n or d",
        "BadIndent 2:2",
    ),
    (
        "a if it is not the case that\n   b\n  and c",
        "BadIndent 3:3",
    ),
];

const QUERIES: [(&str, &str); 6] = [
    ("a if b", "0..0 0..3@0"),
    ("a\nand b", "0..0 and 2@0 0..1@0 2..3@2"),
    ("and b", "BadIndent 1:1"),
    ("it is the case that b", "BadIndent 1:1"),
    ("a\n or b", "0..0 or 2@0 0..1@0 2..3@2"),
    (" a\nand b", "BadIndent 2:1"),
];

#[test]
fn rules(rt: HostRuntime) -> Result<(), Fail> {
    for (text, expected) in RULES {
        let found = outcome(rt.alloc(), text, false)?;
        assert_eq!(rt; found.as_str(), expected);
    }
    Ok(())
}

#[test]
fn faults(rt: HostRuntime) -> Result<(), Fail> {
    for (text, expected) in FAULTS {
        let found = outcome(rt.alloc(), text, false)?;
        assert_eq!(rt; found.as_str(), expected);
    }
    Ok(())
}

#[test]
fn queries(rt: HostRuntime) -> Result<(), Fail> {
    for (text, expected) in QUERIES {
        let found = outcome(rt.alloc(), text, true)?;
        assert_eq!(rt; found.as_str(), expected);
    }
    Ok(())
}

// A text, as many words, and another text.
fn long_rule(alloc: Global, start: &str, count: usize, end: &str) -> Result<String, AllocError> {
    let mut text = String::from_str(alloc, start)?;
    for _ in 0..count {
        text.push_str(" b")?;
    }
    text.push_str(end)?;
    outcome(alloc, text.as_str(), false)
}

const NEGATION: &str = "a if b\nand it is not the case that";

const MARKER: &str = "a if for all cases in which b\nit is the case that";

// Texts with as many words between them, and what they are. The words of an opener and of a marker count, and a
// connective doesn't.
const LONG: [(&str, usize, &str, &str); 10] = [
    ("b", 199, "", "0..200"),
    ("b", 200, "", "LongSentence 1:1"),
    ("b", 199, " if c", "0..200 201..202@201"),
    ("b", 200, " if c", "LongSentence 1:1"),
    ("a if", 200, "", "0..1 2..202@2"),
    ("a if", 201, "", "LongSentence 1:6"),
    (NEGATION, 194, "", "0..1 and 2@2 2..3@2 not@4 10..204@10"),
    (NEGATION, 195, "", "LongSentence 2:5"),
    (MARKER, 195, "", "0..1 for-all@2 7..8@7 13..208@13"),
    (MARKER, 196, "", "LongSentence 2:1"),
];

#[test]
fn long_parts(rt: HostRuntime) -> Result<(), Fail> {
    for (start, count, end, expected) in LONG {
        let found = long_rule(rt.alloc(), start, count, end)?;
        assert_eq!(rt; found.as_str(), expected);
    }
    Ok(())
}

#[test]
fn nodes_of_a_vector(rt: HostRuntime) -> Result<(), Fail> {
    nothing_lost();
    one_tree();
    least_decides();
    let mut items = Vec::new(rt.alloc());
    items.push(Cond {
        kind: CondKind::Sentence(Span { from: 1, to: 3 }),
        at: 1,
    })?;
    let nodes = Nodes::from_vec(Nodes::from_vec(items).into_vec());
    assert_eq!(rt; nodes.as_slice().len(), 1);
    Ok(())
}
