use crate::document_tests::writes;
use std::alloc::{AllocError, Global};
use std::test::Fail;

const ASK: [&str; 3] = ["answer", "--query", "one"];

const YES: &str = "answer 1\nyes\nno more answers\n";

// A template, a fact, the query's sentence, the report and its status.
const PHRASES: [(&str, &str, &str, &str, u8); 9] = [
    ("*an if each* is fine", "Bob is fine", "Bob is fine", YES, 0),
    (
        "*a thing* b c d e f g h i j k l m n o p b c d e f g h i j k l m n o p b c d e f g h i j k",
        "Bob b c d e f g h i j k l m n o p b c d e f g h i j k l m n o p b c d e f g h i j k",
        "Bob b c d e f g h i j k l m n o p b c d e f g h i j k l m n o p b c d e f g h i j K",
        YES,
        0,
    ),
    (
        "*a thing* is fine",
        "the b c d e f g h i j k l m is fine",
        "which thing is fine",
        "answer 1\nthing: the b c d e f g h i j k l m\nno more answers\n",
        0,
    ),
    (
        "*a thing* is fine",
        "the b c d e f g h i j k l m n is fine",
        "which thing is fine",
        "refused 10 NoReading at line 4 column 5\n",
        1,
    ),
    (
        "*a person* likes *a thing*",
        "a \u{c9} likes a \u{e9}",
        "which one likes which other",
        "answer 1\none: a thing 1\nother: a thing 2\nno more answers\n",
        0,
    ),
    (
        "*a person* likes *a thing*",
        "a CAR likes a car",
        "Bob likes Ann",
        "refused 13 Again at line 4 column 17\n",
        1,
    ),
    (
        "*a thing* is fine",
        "The car is fine. the car is fine. \"The car\" is fine",
        "which thing is fine",
        "answer 1\nthing: the car\nanswer 2\nthing: the car\nanswer 3\nthing: \"The car\"\nno more answers\n",
        0,
    ),
    (
        "*a person* likes *a thing*",
        "a person likes which person",
        "Bob likes Ann",
        "refused 14 WhichHere at line 4 column 20\n",
        1,
    ),
    (
        "*a person* says *a thing* to *a person*",
        "\"Ann\" says go to Bob to Carl",
        "Ann says which thing to Carl",
        "refused 11 Ambiguous at line 4 column 5\nreading 1: *\"Ann\"* says *go* to *Bob to Carl*\nreading 2: *\"Ann\"* says *go to Bob* to *Carl*\n",
        1,
    ),
];

#[test]
fn phrases(rt: HostRuntime) -> Result<(), Fail> {
    let alloc = rt.alloc();
    for (template, fact, query, report, status) in PHRASES {
        let text = format!(in alloc;
            "the templates are:\n    {template}.\nthe knowledge base includes:\n    {fact}.\nquery one is:\n    {query}.\n"
        )?;
        assert!(rt; writes(alloc, &ASK, text.as_str(), report, status)?);
    }
    Ok(())
}

// A rule that introduces 64 variables, two in each line from the fourth on, with this last line.
fn full_scope(alloc: Global, last: &str) -> Result<String, AllocError> {
    let mut text = String::from_str(
        alloc,
        "the templates are:\n*a person* likes *a thing*.\nthe knowledge base includes:\n",
    )?;
    for k in 0..32_u32 {
        let word = match k {
            0 => "",
            1 => "if ",
            _ => "and ",
        };
        let line = format!(in alloc; "{word}a v{k} likes a w{k}\n")?;
        text.push_str(line.as_str())?;
    }
    text.push_str(last)?;
    Ok(text)
}

// A thousand templates, each in a line of its own from the second on, and then this one.
fn full_table(alloc: Global, last: &str) -> Result<String, AllocError> {
    let mut text = String::from_str(alloc, "the templates are:\n")?;
    for k in 0..1000_u32 {
        let line = format!(in alloc; "*a thing* is w{k},\n")?;
        text.push_str(line.as_str())?;
    }
    text.push_str(last)?;
    Ok(text)
}

// So many facts, each in a line of its own from the third on, and then this text.
fn full_base(alloc: Global, facts: u32, last: &str) -> Result<String, AllocError> {
    let mut text = String::from_str(
        alloc,
        "the templates are: *a thing* is new.\nthe knowledge base includes:\n",
    )?;
    for _ in 0..facts {
        text.push_str("b is new.\n")?;
    }
    text.push_str(last)?;
    Ok(text)
}

const ONE: &str = "answer 1\nyes\nstopped after 1 answers\n";

// How many facts there are, what follows them, the report and its status. A rule with a disjunction of two has three
// clauses, and a query with one has two.
const FULL: [(u32, &str, &str, u8); 4] = [
    (
        49_997,
        " c is new if b is new\n or b is new.\nquery one is: b is new.\n",
        ONE,
        0,
    ),
    (
        49_998,
        " c is new if b is new\n or b is new.\nquery one is: b is new.\n",
        "refused 20 TooMany at line 50001 column 2\n",
        1,
    ),
    (49_998, "query one is:\n b is new\n or c is new.\n", ONE, 0),
    (
        49_999,
        "query one is:\n b is new\n or c is new.\n",
        "refused 20 TooMany at line 50003 column 2\n",
        1,
    ),
];

#[test]
fn full_documents(rt: HostRuntime) -> Result<(), Fail> {
    let alloc = rt.alloc();
    let words = ["answer", "--query", "one", "--answers", "1"];
    for (facts, last, report, status) in FULL {
        let text = full_base(alloc, facts, last)?;
        assert!(rt; writes(alloc, &words, text.as_str(), report, status)?);
    }
    Ok(())
}

#[test]
fn limits(rt: HostRuntime) -> Result<(), Fail> {
    let alloc = rt.alloc();
    for (last, report) in [
        (
            "and Bob likes a v64.",
            "refused 20 TooMany at line 36 column 15\n",
        ),
        (
            "and Bob likes a v0.",
            "refused 13 Again at line 36 column 15\n",
        ),
        (
            "and Bob likes the w31.",
            "refused 22 NoQuery at line 0 column 0\n",
        ),
    ] {
        let text = full_scope(alloc, last)?;
        assert!(rt; writes(alloc, &ASK, text.as_str(), report, 1)?);
    }
    for (last, report) in [
        (
            "*a thing* is new.",
            "refused 20 TooMany at line 1002 column 1\n",
        ),
        (
            "*a thing is new.",
            "refused 8 BadTemplate at line 1002 column 1\n",
        ),
        (
            "*a person* is w7.",
            "refused 9 SameTemplate at line 1002 column 1\n",
        ),
        (".", "refused 22 NoQuery at line 0 column 0\n"),
    ] {
        let text = full_table(alloc, last)?;
        assert!(rt; writes(alloc, &ASK, text.as_str(), report, 1)?);
    }
    Ok(())
}

const MOODS: &str =
    "the templates are:\n    *a person* is rich,\n    *a person* is calm,\n    *a person* is loved,\n    *a person* is well,\n    *a person* is happy.\nthe knowledge base moods includes:\na person is happy\nif the person is rich\nand the person is calm\n    or the person is loved\nand the person is well.\n";

const MOOD_CLAUSES: &str =
    "knowledge base moods\n8: *V1* is happy if *V1* is rich and group 1 *V1* and *V1* is well\n10: group 1 *V1* if *V1* is calm\n11: group 1 *V1* if *V1* is loved\nend of clauses\n";

#[test]
fn clauses(rt: HostRuntime) -> Result<(), Fail> {
    let alloc = rt.alloc();
    for (text, report, status) in [
        (MOODS, MOOD_CLAUSES, 0),
        ("", "end of clauses\n", 0),
        (
            "query one is:\n",
            "refused 7 NoStop at line 1 column 1\n",
            1,
        ),
    ] {
        assert!(rt; writes(alloc, &["clauses"], text, report, status)?);
    }
    Ok(())
}
