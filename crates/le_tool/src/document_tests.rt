use crate::run;
use le_base::{MemSink, MemSource};
use std::alloc::{AllocError, Global};
use std::test::Fail;

// What `run` writes for a document and these words, and its status.
fn outcome(alloc: Global, words: &[&str], text: &str) -> Result<(u8, String), AllocError> {
    let mut list = Vec::new(alloc);
    for word in words {
        list.push(String::from_str(alloc, word)?)?;
    }
    let bytes = Vec::from_slice(alloc, text.as_bytes())?;
    let mut input = MemSource::new(bytes, 4096, Vec::new(alloc));
    let mut out = MemSink::new(alloc, 10_000, 4096, Vec::new(alloc))?;
    let status = run(alloc, &list, &mut input, &mut out);
    let written = std::str::from_utf8(out.bytes()).unwrap_or("not a text");
    Ok((status, String::from_str(alloc, written)?))
}

// Whether `run` writes this report and answers this status.
pub(crate) fn writes(
    alloc: Global,
    words: &[&str],
    text: &str,
    report: &str,
    status: u8,
) -> Result<bool, AllocError> {
    let (answer, written) = outcome(alloc, words, text)?;
    Ok(answer == status && written.as_str() == report)
}

const YES: &str = "answer 1\nyes\nno more answers\n";

const NONE: &str = "no more answers\n";

// The sentence of a query in a document that has nothing else, the report and its status.
const QUERIES: [(&str, &str, u8); 16] = [
    ("a list is equal to [1 | the list].", NONE, 0),
    (
        "which number is 999999999999999999 plus 1.",
        "answer 1\nnumber: 1000000000000000000\nno more answers\n",
        0,
    ),
    (
        "which number is 1000000000000000000 plus 1.",
        "out of range at line 2\n",
        9,
    ),
    (
        "which number is equal to 1000000000000000001.",
        "refused 24 BadNumber at line 2 column 30\n",
        1,
    ),
    ("2024-02-29 is 1 months after 2024-01-31.", YES, 0),
    (
        "which date is 1 days after 2023-02-30.",
        "refused 23 BadDate at line 2 column 32\n",
        1,
    ),
    (
        "which date is 1 days after 2023-12-31.",
        "answer 1\ndate: 2024-01-01\nno more answers\n",
        0,
    ),
    (
        "which thing is in [Bob, Ann].",
        "answer 1\nthing: Bob\nanswer 2\nthing: Ann\nno more answers\n",
        0,
    ),
    (
        "which list is equal to [1 | a rest].",
        "answer 1\nlist: [1 | a thing 1]\nno more answers\n",
        0,
    ),
    (
        "[which thing, 2] is equal to [1, which other].",
        "answer 1\nthing: 1\nother: 2\nno more answers\n",
        0,
    ),
    (
        "which list followed by which other list is [1, [2]].",
        "answer 1\nlist: []\nother list: [1, [2]]\nanswer 2\nlist: [1]\nother list: [[2]]\nanswer 3\nlist: [1, [2]]\nother list: []\nno more answers\n",
        0,
    ),
    (
        "which number is the length of [1, 2 | a rest].",
        "floundered at line 2\n",
        3,
    ),
    ("which number is 7 divided by 0.", NONE, 0),
    (
        "which number is -7 divided by 2.",
        "answer 1\nnumber: -4\nno more answers\n",
        0,
    ),
    (
        "which number is equal to 5,5.",
        "refused 24 BadNumber at line 2 column 30\n",
        1,
    ),
    (
        "which thing is equal to [1, ].",
        "refused 10 NoReading at line 2 column 5\n",
        1,
    ),
];

#[test]
fn queries(rt: HostRuntime) -> Result<(), Fail> {
    let alloc = rt.alloc();
    for (sentence, report, status) in QUERIES {
        let text = format!(in alloc; "query one is:\n    {sentence}\n")?;
        let right = writes(
            alloc,
            &["answer", "--query", "one"],
            text.as_str(),
            report,
            status,
        )?;
        assert!(rt; right);
    }
    Ok(())
}

pub(crate) const CITIZENSHIP: &str =
    "the target language is: prolog.\n\nthe templates are:\n    *a person* is born in *a place* on *a date*,\n    *a date* is after commencement,\n    *a person* is the mother of *a person*,\n    *a person* is a British citizen on *a date*,\n    *a person* is settled in the UK on *a date*,\n    *a person* acquires British citizenship on *a date*.\n\nthe knowledge base citizenship includes:\n    a person acquires British citizenship on a date\n    if the person is born in the UK on the date\n    and the date is after commencement\n    and an other person is the mother of the person\n    and the other person is a British citizen on the date\n        or the other person is settled in the UK on the date.\n\nscenario alice is:\n    John is born in the UK on 2021-10-09.\n    2021-10-09 is after commencement.\n    Alice is the mother of John.\n    Alice is a British citizen on 2021-10-09.\n\nquery one is:\n    which person acquires British citizenship on which date.\n";

const MOODS: &str =
    "the templates are:\n    *a person* is rich,\n    *a person* is calm,\n    *a person* is loved,\n    *a person* is well,\n    *a person* is happy.\nthe knowledge base moods includes:\na person is happy\nif the person is rich\nand the person is calm\nor the person is loved\nand the person is well.\n";

const POOR: &str =
    "the templates are:\n    *a person* is poor,\n    *a person* is rich.\nthe knowledge base one includes:\n    a person is poor if it is not the case that the person is rich.\nscenario alice is:\n    Ann is rich.\nquery one is:\n    which person is poor.\nquery two is:\n    Ann is poor.\nquery three is:\n    Bob is poor.\n";

const POOR_AND_MORE: &str =
    "the templates are:\n    *a person* is poor,\n    *a person* is rich.\nthe knowledge base one includes:\n    a person is poor if it is not the case that the person is rich\n        and the person is poor.\nquery one is:\n    which person is poor.\n";

const CAREFUL: &str =
    "the templates are:\n    *a person* is careful,\n    *a person* owns *a thing*,\n    *a thing* is insured.\nthe knowledge base one includes:\n    a person is careful\n    if for all cases in which\n            the person owns a thing\n        it is the case that\n            the thing is insured.\nscenario alice is:\n    Bob owns car one.\n    car one is insured.\nscenario two is:\n    Ann owns car two.\nquery one is:\n    Ann is careful.\nquery two is:\n    Bob is careful.\n";

const OWING: &str =
    "the templates are:\n    *a person* pays *an amount* for *a thing*,\n    *a person* owes *an amount*.\nthe knowledge base one includes:\n    a person owes a total\n    if the total is the sum of each amount such that\n        the person pays the amount for a thing.\nscenario alice is:\n    Bob pays 5 for the car.\n    Bob pays 5 for the boat.\nscenario two is:\n    Bob pays much for the car.\nquery one is:\n    Bob owes which total.\nquery two is:\n    Ann owes which total.\nquery three is:\n    which number is the number of each amount such that Bob pays the amount for a thing.\n";

// A document, the query, the scenario, the report and its status.
const DOCUMENTS: [(&str, &str, &str, &str, u8); 14] = [
    (
        CITIZENSHIP,
        "one",
        "alice",
        "answer 1\nperson: John\ndate: 2021-10-09\nno more answers\n",
        0,
    ),
    (
        MOODS,
        "one",
        "alice",
        "refused 15 MixedConnectives at line 11 column 1\n",
        1,
    ),
    (
        POOR_AND_MORE,
        "one",
        "alice",
        "refused 17 NegationScope at line 6 column 9\n",
        1,
    ),
    (POOR, "one", "alice", "floundered at line 5\n", 3),
    (POOR, "two", "alice", NONE, 0),
    (POOR, "three", "alice", YES, 0),
    (CAREFUL, "one", "alice", YES, 0),
    (CAREFUL, "one", "two", NONE, 0),
    (CAREFUL, "two", "alice", YES, 0),
    (
        OWING,
        "one",
        "alice",
        "answer 1\ntotal: 10\nno more answers\n",
        0,
    ),
    (
        OWING,
        "two",
        "alice",
        "answer 1\ntotal: 0\nno more answers\n",
        0,
    ),
    (
        OWING,
        "three",
        "alice",
        "answer 1\nnumber: 2\nno more answers\n",
        0,
    ),
    (OWING, "one", "two", NONE, 0),
    (
        CITIZENSHIP,
        "two",
        "alice",
        "refused 22 NoQuery at line 0 column 0\n",
        1,
    ),
];

#[test]
fn documents(rt: HostRuntime) -> Result<(), Fail> {
    let alloc = rt.alloc();
    for (text, query, scenario, report, status) in DOCUMENTS {
        let words = ["answer", "--query", query, "--scenario", scenario];
        assert!(rt; writes(alloc, &words, text, report, status)?);
    }
    Ok(())
}

// A document with facts about `item 1` and so on, below this number, and with its scenario before the queries.
fn facts(alloc: Global, end: u32) -> Result<String, AllocError> {
    let mut text = String::from_str(
        alloc,
        "the templates are: *a thing* is new.\nscenario s is:\n",
    )?;
    for k in 1..end {
        let line = format!(in alloc; "item {k} is new.\n")?;
        text.push_str(line.as_str())?;
    }
    text.push_str("query one is: which thing is new.\nquery last is: item 1029 is new.\n")?;
    Ok(text)
}

// The report of the first hundred answers.
fn hundred(alloc: Global) -> Result<String, AllocError> {
    let mut text = String::new(alloc);
    for k in 1..101_u32 {
        let line = format!(in alloc; "answer {k}\nthing: item {k}\n")?;
        text.push_str(line.as_str())?;
    }
    text.push_str("stopped after 100 answers\n")?;
    Ok(text)
}

#[test]
fn a_hundred_answers_and_more_names(rt: HostRuntime) -> Result<(), Fail> {
    let alloc = rt.alloc();
    let text = facts(alloc, 1030)?;
    let report = hundred(alloc)?;
    let all = ["answer", "--query", "one", "--scenario", "s"];
    assert!(rt; writes(alloc, &all, text.as_str(), report.as_str(), 0)?);
    let last = ["answer", "--query", "last", "--scenario", "s"];
    assert!(rt; writes(alloc, &last, text.as_str(), YES, 0)?);
    Ok(())
}
