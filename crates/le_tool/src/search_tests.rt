use crate::document_tests::{CITIZENSHIP, writes};
use std::alloc::{AllocError, Global};
use std::test::Fail;

// Whether this command writes this report and answers status 0 for the query `one` of a document, under the scenario of a
// name that isn't empty.
fn reports(
    alloc: Global,
    command: &str,
    text: &str,
    scenario: &str,
    report: &str,
) -> Result<bool, AllocError> {
    if scenario.is_empty() {
        return writes(alloc, &[command, "--query", "one"], text, report, 0);
    }
    let words = [command, "--query", "one", "--scenario", scenario];
    writes(alloc, &words, text, report, 0)
}

const CAREFUL: &str =
    "the templates are:\n    *a person* is careful,\n    *a person* owns *a thing*,\n    *a thing* is insured.\nthe knowledge base one includes:\n    a person is careful\n    if for all cases in which\n            the person owns a thing\n        it is the case that\n            the thing is insured.\nscenario one is:\n    Bob owns car one.\n    car one is insured.\nquery one is:\n    Ann is careful.\n";

const OWING: &str =
    "the templates are:\n    *a person* pays *an amount* for *a thing*,\n    *a person* owes *an amount*.\nthe knowledge base one includes:\n    a person owes a total\n    if the total is the sum of each amount such that\n        the person pays the amount for a thing.\nscenario one is:\n    Bob pays 5 for the car.\n    Bob pays 5 for the boat.\nquery one is:\n    Bob owes which total.\nquery two is:\n    Ann owes which total.\n";

const HAPPY: &str =
    "the templates are:\n    *a person* is happy,\n    *a person* is rich,\n    *a person* is calm.\nthe knowledge base one includes:\n    a person is happy\n    if the person is rich\n    and the person is calm.\n    Bob is rich.\n    Bob is calm.\n    Ann is calm.\nquery one is:\n    which person is happy.\n";

const SAYING: &str =
    "the templates are:\n    *a person* is happy,\n    *a person* says *a thing*.\nthe knowledge base one includes:\n    Ann says \"Bob is happy\".\nquery one is:\n    Ann says which thing.\n";

// Documents, the scenario, and the explained answers.
const EXPLAINED: [(&str, &str, &str); 4] = [
    (
        CITIZENSHIP,
        "alice",
        "answer 1\nperson: John\ndate: 2021-10-09\nbecause\n    John acquires British citizenship on 2021-10-09. % rule, line 12\n        John is born in the UK on 2021-10-09. % fact, line 20\n        2021-10-09 is after commencement. % fact, line 21\n        Alice is the mother of John. % fact, line 22\n        Alice is a British citizen on 2021-10-09. % fact, line 23\nno more answers\n",
    ),
    (
        CAREFUL,
        "one",
        "answer 1\nyes\nbecause\n    Ann is careful. % rule, line 6\n        the condition at line 7 is met in every case. % all cases\nno more answers\n",
    ),
    (
        OWING,
        "one",
        "answer 1\ntotal: 10\nbecause\n    Bob owes 10. % rule, line 5\n        10 is the sum over 2 cases at line 6. % all cases\nno more answers\n",
    ),
    (
        SAYING,
        "",
        "answer 1\nthing: Bob is happy\nbecause\n    *Ann* says *Bob is happy*. % fact, line 5\nno more answers\n",
    ),
];

// Documents, the scenario, and what follows the document in its bundle.
const CERTIFIED: [(&str, &str, &str); 3] = [
    (
        CAREFUL,
        "one",
        "=== certificates ===\nquery one\nscenario one\nbudget 100000\nanswers 100\nanswer 1\nderivation 5\nuse 1 1 p20 n2\nabsent p23 n2\nsplit 1\nbranch 2\nsplit 0\nno more answers\n",
    ),
    (
        OWING,
        "one",
        "=== certificates ===\nquery one\nscenario one\nbudget 100000\nanswers 100\nanswer 1\nderivation 9\nuse 1 1 p21 n0 i10\ngather sum i10 v1 p22 n0 v1\nsplit 1\nbranch 2\nsplit 2\nbranch 3\nsuccess\nbranch 4\nsuccess\nno more answers\n",
    ),
    (
        HAPPY,
        "",
        "=== certificates ===\nquery one\nbudget 100000\nanswers 100\nanswer 1\nderivation 3\nuse 1 2 p20 n0\nuse 2 0 p21 n0\nuse 3 0 p22 n0\nno more answers\n",
    ),
];

#[test]
fn explanations(rt: HostRuntime) -> Result<(), Fail> {
    let alloc = rt.alloc();
    for (text, scenario, report) in EXPLAINED {
        assert!(rt; reports(alloc, "explain", text, scenario, report)?);
    }
    Ok(())
}

// Documents, the scenario, and a budget of as many selections as the whole search takes or one less, with the answers.
const BUDGETS: [(&str, &str, &str, &str, u8); 6] = [
    (CAREFUL, "one", "4", "answer 1\nyes\nno more answers\n", 0),
    (CAREFUL, "one", "3", "budget spent after 3 selections\n", 4),
    (
        CITIZENSHIP,
        "alice",
        "7",
        "answer 1\nperson: John\ndate: 2021-10-09\nno more answers\n",
        0,
    ),
    (
        CITIZENSHIP,
        "alice",
        "6",
        "answer 1\nperson: John\ndate: 2021-10-09\nbudget spent after 6 selections\n",
        4,
    ),
    (
        OWING,
        "one",
        "4",
        "answer 1\ntotal: 10\nno more answers\n",
        0,
    ),
    (OWING, "one", "3", "budget spent after 3 selections\n", 4),
];

#[test]
fn selections(rt: HostRuntime) -> Result<(), Fail> {
    let alloc = rt.alloc();
    for (text, scenario, budget, report, status) in BUDGETS {
        let words = [
            "answer",
            "--query",
            "one",
            "--scenario",
            scenario,
            "--budget",
            budget,
        ];
        assert!(rt; writes(alloc, &words, text, report, status)?);
    }
    Ok(())
}

// Whether `certify` writes a document and then these lines.
fn certifies(alloc: Global, text: &str, scenario: &str, lines: &str) -> Result<bool, AllocError> {
    let report = format!(in alloc; "{text}{lines}")?;
    reports(alloc, "certify", text, scenario, report.as_str())
}

#[test]
fn bundles(rt: HostRuntime) -> Result<(), Fail> {
    let alloc = rt.alloc();
    for (text, scenario, lines) in CERTIFIED {
        assert!(rt; certifies(alloc, text, scenario, lines)?);
    }
    Ok(())
}

// The lines after the document in a bundle, the report of `check`, and its status.
const CHECKED: [(&str, &str, u8); 5] = [
    (
        "=== certificates ===\nquery one\nbudget 100000\nanswers 100\nanswer 1\nderivation 3\nuse 1 2 p20 n0\nuse 2 0 p21 n0\nuse 3 0 p22 n0\nno more answers\n",
        "certificate 1 accepted\nperson: Bob\n1 certificates accepted\n",
        0,
    ),
    (
        "=== certificates ===\nquery one\nbudget 100000\nanswers 100\nanswer 1\nderivation 3\nuse 1 2 p20 n0\nuse 2 0 p21 n0\nuse 4 0 p22 n0\nno more answers\n",
        "certificate 1 refused at node 3: why 2\n",
        8,
    ),
    (
        "=== certificates ===\nquery one\nbudget 100000\nanswers 100\nanswer 1\nderivation 3\nuse 1 2 p20 n0\nuse 2 0 p21 n0\nuse 3 0 p22 n0\nno more answers",
        "bundle refused at line 23\n",
        8,
    ),
    (
        "=== certificates ===\nquery two\nbudget 100000\nanswers 100\nanswer 1\nderivation 3\nuse 1 2 p20 n0\nuse 2 0 p21 n0\nuse 3 0 p22 n0\nno more answers\n",
        "refused 22 NoQuery at line 0 column 0\n",
        1,
    ),
    (
        "=== certificates ===\nquery one\nbudget 1\nanswers 1\nno more answers\n",
        "0 certificates accepted\n",
        0,
    ),
];

// Whether `check` writes this report and answers this status for these lines after a document.
fn checks(alloc: Global, lines: &str, report: &str, status: u8) -> Result<bool, AllocError> {
    let bundle = format!(in alloc; "{HAPPY}{lines}")?;
    writes(alloc, &["check"], bundle.as_str(), report, status)
}

#[test]
fn checked_bundles(rt: HostRuntime) -> Result<(), Fail> {
    let alloc = rt.alloc();
    for (lines, report, status) in CHECKED {
        assert!(rt; checks(alloc, lines, report, status)?);
    }
    Ok(())
}
