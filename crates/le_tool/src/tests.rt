use crate::{Command, Task, job, run};
use le_base::{MemSink, MemSource};
use std::alloc::{AllocError, Global};
use std::test::Fail;

// A document with these templates, these rules and facts, and the query `one`.
fn document(
    alloc: Global,
    templates: &str,
    rules: &str,
    query: &str,
) -> Result<String, AllocError> {
    format!(in alloc;
        "the templates are:\n    {templates}\nthe knowledge base one includes:\n    {rules}\nquery one is:\n    {query}\n"
    )
}

// What `run` answers and writes for a document that comes in pieces and with failing calls.
fn outcome(
    alloc: Global,
    words: &[&str],
    text: &str,
    piece: usize,
    read_fails: &[u64],
    write_fails: &[u64],
) -> Result<(u8, String), Fail> {
    let mut list = Vec::new(alloc);
    for word in words {
        list.push(String::from_str(alloc, word)?)?;
    }
    let piece = piece.max(1);
    let bytes = Vec::from_slice(alloc, text.as_bytes())?;
    let mut input = MemSource::new(bytes, piece, Vec::from_slice(alloc, read_fails)?);
    let mut out = MemSink::new(alloc, 10_000, piece, Vec::from_slice(alloc, write_fails)?)?;
    let status = run(alloc, &list, &mut input, &mut out);
    let written = std::str::from_utf8(out.bytes()).unwrap_or("not a text");
    Ok((status, String::from_str(alloc, written)?))
}

const ASK: [&str; 3] = ["answer", "--query", "one"];

const YES: &str = "answer 1\nyes\nno more answers\n";

const HAPPY: &str = "*a person* is happy.";

// Templates, rules and facts, the sentence of the query, the report and its status.
const REPORTS: [(&str, &str, &str, &str, u8); 20] = [
    (HAPPY, "Bob is happy.", "Bob is happy.", YES, 0),
    (HAPPY, "Bob Smith is happy.", "Bob Smith IS happy.", YES, 0),
    (
        HAPPY,
        "Bob Smith is happy.",
        "bob Smith is happy.",
        "no more answers\n",
        0,
    ),
    (
        HAPPY,
        "Bob is happy.",
        "Bob is happy",
        "refused 7 NoStop at line 6 column 5\n",
        1,
    ),
    (HAPPY, "Bob is happy.\r", "Bob is happy.\r", YES, 0),
    (
        HAPPY,
        "Bob is happy and Ann is happy.",
        "Bob is happy.",
        "refused 10 NoReading at line 4 column 5\n",
        1,
    ),
    (
        HAPPY,
        "a person is happy if the second person is happy.",
        "Bob is happy.",
        "refused 12 Dangling at line 4 column 26\n",
        1,
    ),
    (
        HAPPY,
        "Bob is equal to Ann.",
        "Bob is happy.",
        "refused 18 PredefinedHead at line 4 column 5\n",
        1,
    ),
    (HAPPY, "Bob is happy.", "Bob is equal to Bob.", YES, 0),
    (
        HAPPY,
        "which person is happy.",
        "Bob is happy.",
        "refused 14 WhichHere at line 4 column 5\n",
        1,
    ),
    (
        HAPPY,
        "Bob is happy.",
        "which person is happy\n    and which person is happy.",
        "refused 13 Again at line 7 column 9\n",
        1,
    ),
    (
        HAPPY,
        "Bob = happy.",
        "Bob is happy.",
        "refused 3 BadCharacter at line 4 column 9\n",
        1,
    ),
    (
        HAPPY,
        "a person is happy.",
        "which person is happy.",
        "answer 1\nperson: a thing 1\nno more answers\n",
        0,
    ),
    (
        "*a person* says *a thing* to *a person*.",
        "Ann says go to Bob to Carl.",
        "Ann says which thing to Carl.",
        "refused 11 Ambiguous at line 4 column 5\nreading 1: *Ann* says *go* to *Bob to Carl*\nreading 2: *Ann* says *go to Bob* to *Carl*\n",
        1,
    ),
    (
        "*a person* says *a thing* to *a person*.",
        "*Ann* says *go to Bob* to *Carl*.",
        "Ann says which thing to Carl.",
        "answer 1\nthing: go to Bob\nno more answers\n",
        0,
    ),
    (
        "*a person* is happy, *a person* is *a mood*.",
        "Bob is happy.",
        "Bob is happy.",
        YES,
        0,
    ),
    (
        "*a person* is happy, *a person* is *a mood*.",
        "Bob is happy.",
        "Bob is which mood.",
        "no more answers\n",
        0,
    ),
    (
        "*a person* owns *a thing*, *a person* is rich.",
        "a person is rich\n    if the person owns a thing\n    and the thing is rich.\n    Ann owns the car. Bob owns \"the thing\". the car is rich. \"the thing\" is rich.",
        "which person is rich.",
        "answer 1\nperson: Ann\nanswer 2\nperson: Bob\nanswer 3\nperson: the car\nanswer 4\nperson: \"the thing\"\nno more answers\n",
        0,
    ),
    (
        "*a person* is happy, *a child* IS happy.",
        "Bob is happy.",
        "Bob is happy.",
        "refused 9 SameTemplate at line 2 column 26\n",
        1,
    ),
    (
        HAPPY,
        "Bob is happy.\nscenario x is: Bob",
        "Bob is happy.",
        "refused 7 NoStop at line 5 column 16\n",
        1,
    ),
];

#[test]
fn reports(rt: HostRuntime) -> Result<(), Fail> {
    let alloc = rt.alloc();
    for (templates, rules, query, report, status) in REPORTS {
        let text = document(alloc, templates, rules, query)?;
        for piece in [1, 4096] {
            let (answer, written) = outcome(alloc, &ASK, text.as_str(), piece, &[], &[])?;
            assert_eq!(rt; written.as_str(), report);
            assert_eq!(rt; answer, status);
        }
    }
    Ok(())
}

const THREE: &str =
    "the templates are:\n    *a person* is happy,\n    *a person* is lucky.\nthe knowledge base one includes:\n    Bob is happy. Ann is happy. Carl is happy.\n    a person is lucky if the person is lucky.\nscenario two is:\n    Dora is happy.\nquery one is:\n    which person is happy.\nquery two is:\n    Bob is lucky.\n";

// Words, the report on the same document, and its status.
const TASKS: [(&[&str], &str, u8); 9] = [
    (
        &["answer", "--query", "one", "--answers", "2"],
        "answer 1\nperson: Bob\nanswer 2\nperson: Ann\nstopped after 2 answers\n",
        0,
    ),
    (
        &["answer", "--budget", "1", "--query", "one"],
        "answer 1\nperson: Bob\nanswer 2\nperson: Ann\nanswer 3\nperson: Carl\nno more answers\n",
        0,
    ),
    (
        &["answer", "--query", "one", "--answers", "3"],
        "answer 1\nperson: Bob\nanswer 2\nperson: Ann\nanswer 3\nperson: Carl\nstopped after 3 answers\n",
        0,
    ),
    (
        &[
            "answer",
            "--query",
            "one",
            "--scenario",
            "two",
            "--answers",
            "5",
        ],
        "answer 1\nperson: Bob\nanswer 2\nperson: Ann\nanswer 3\nperson: Carl\nanswer 4\nperson: Dora\nno more answers\n",
        0,
    ),
    (
        &["answer", "--query", "two", "--budget", "5"],
        "budget spent after 5 selections\n",
        4,
    ),
    (
        &["answer", "--query", "three"],
        "refused 22 NoQuery at line 0 column 0\n",
        1,
    ),
    (
        &["answer", "--query", "three", "--scenario", "one"],
        "refused 21 NoScenario at line 0 column 0\n",
        1,
    ),
    (&["answer", "--query", "one", "--query", "one"], USAGE, 2),
    (&["answer", "--query=one"], USAGE, 2),
];

const USAGE: &str =
    "usage: le answer|explain|certify --query NAME [--scenario NAME] [--budget N] [--answers K] | clauses | check | trial N\n";

#[test]
fn tasks(rt: HostRuntime) -> Result<(), Fail> {
    let alloc = rt.alloc();
    for (words, report, status) in TASKS {
        let (answer, written) = outcome(alloc, words, THREE, 4096, &[], &[])?;
        assert_eq!(rt; written.as_str(), report);
        assert_eq!(rt; answer, status);
    }
    let (answer, written) = outcome(alloc, &ASK, "", 4096, &[], &[])?;
    assert_eq!(rt; written.as_str(), "refused 22 NoQuery at line 0 column 0\n");
    assert_eq!(rt; answer, 1);
    Ok(())
}

// Command lines that aren't valid.
const OTHERS: [&[&str]; 14] = [
    &[],
    &["--help"],
    &["answer"],
    &["answer", "--query"],
    &["answer", "--query", "one", "--budget"],
    &["answer", "--query", "one", "--budget", "0"],
    &["answer", "--query", "one", "--budget", "100001"],
    &["answer", "--query", "one", "--answers", "1001"],
    &["answer", "--query", "one", "--answers", "007"],
    &["answer", "--query", "one", "--answers", "+7"],
    &["clauses", "one"],
    &["explain"],
    &["certify", "one"],
    &["check", "one"],
];

#[test]
fn jobs(rt: HostRuntime) -> Result<(), Fail> {
    let alloc = rt.alloc();
    for words in OTHERS {
        let mut list = Vec::new(alloc);
        for word in words {
            list.push(String::from_str(alloc, word)?)?;
        }
        assert_eq!(rt; job(&list), None);
    }
    let mut list = Vec::new(alloc);
    for word in [
        "answer",
        "--answers",
        "1000",
        "--query",
        "--query",
        "--scenario",
        "",
    ] {
        list.push(String::from_str(alloc, word)?)?;
    }
    let task = Task {
        command: Command::Answer,
        query: Some(4),
        scenario: Some(6),
        budget: 100_000,
        answers: 1000,
    };
    assert_eq!(rt; job(&list), Some(task));
    Ok(())
}

#[test]
fn failing_calls(rt: HostRuntime) -> Result<(), Fail> {
    let alloc = rt.alloc();
    let text = document(alloc, HAPPY, "Bob is happy.", "Bob is happy.")?;
    for call in 1..20 {
        let (status, written) = outcome(alloc, &ASK, text.as_str(), 7, &[call], &[])?;
        assert_eq!(rt; written.as_str(), "");
        assert_eq!(rt; status, 5);
    }
    for call in 1..6 {
        let (status, written) = outcome(alloc, &ASK, text.as_str(), 7, &[], &[call])?;
        assert!(rt; YES.starts_with(written.as_str()));
        assert_eq!(rt; status, 6);
    }
    Ok(())
}
