use crate::{Unfit, open};
use std::alloc::{AllocError, Global};
use std::test::Fail;

// The first line of a short text that doesn't fit, and 0 where it is a bundle.
fn unfit_line(alloc: Global, text: &[u8]) -> Result<u32, AllocError> {
    if text.len() > 1000 {
        return Err(AllocError);
    }
    match open(alloc, text) {
        Ok(_) => Ok(0),
        Err(Unfit::Line(line)) => Ok(line),
        Err(Unfit::Memory) => Err(AllocError),
    }
}

// A marker and the lines of a search, and then these lines.
fn after_head(alloc: Global, lines: &str) -> Result<String, AllocError> {
    format!(in alloc; "a\n=== certificates ===\nquery one\nbudget 7\nanswers 2\n{lines}")
}

const WHOLE: &str =
    "% a document\n=== certificates ===\nquery one\nscenario \"two\"\nbudget 1000000\nanswers 1000\nanswer 1\nderivation 2\nuse 1 1 p20 n0\ncompute p3 i-5 d0\nanswer 2\nderivation 0\nno more answers\n";

// Texts, and the first line that doesn't fit; 0 where they are bundles.
const TEXTS: [(&str, u32); 24] = [
    ("", 1),
    ("a", 2),
    ("a\n", 2),
    ("a\n=== certificates === \n", 3),
    ("=== certificates ===", 1),
    ("a\n\n=== certificates ===", 3),
    ("=== certificates ===\n", 2),
    ("=== certificates ===\r\nquery one\n", 3),
    ("=== certificates ===\nquery \n", 2),
    ("=== certificates ===\nquery one", 2),
    ("=== certificates ===\nscenario two\n", 2),
    ("=== certificates ===\nquery one\n", 3),
    ("=== certificates ===\nquery one\nscenario \n", 3),
    ("=== certificates ===\nquery one\nscenario\n", 3),
    ("=== certificates ===\nquery one\nbudget 0\n", 3),
    ("=== certificates ===\nquery one\nbudget 1000001\n", 3),
    ("=== certificates ===\nquery one\nbudget 07\n", 3),
    ("=== certificates ===\nquery one\nbudget 1000000\n", 4),
    (
        "=== certificates ===\nquery one\nbudget 7\nanswers 1001\n",
        4,
    ),
    (
        "=== certificates ===\nquery one\nbudget 7\nanswers 1000\n",
        5,
    ),
    (
        "=== certificates ===\nquery one\nbudget 7\nanswers 1\nanswer 1\n",
        6,
    ),
    (
        "=== certificates ===\nquery one\nbudget 7\nanswers 1\nanswer 2\n",
        5,
    ),
    (
        "=== certificates ===\nquery one\nbudget 7\nanswers 1\nno more answers\n=== certificates ===\n",
        6,
    ),
    (WHOLE, 0),
];

// What follows the lines of a search with 7 selections and 2 answers, which are five lines, and the first line that doesn't fit.
const REST: [(&str, u32); 22] = [
    ("no more answers\n", 0),
    ("no more answers", 6),
    ("no more answers\n\n", 7),
    ("no more answers\r\n", 6),
    ("stopped after 2 answers\n", 0),
    ("stopped after 1 answers\n", 6),
    ("budget spent after 7 selections\n", 0),
    ("budget spent after 8 selections\n", 6),
    ("floundered at line 0\n", 0),
    ("floundered at line 4294967295\n", 0),
    ("floundered at line 4294967296\n", 6),
    ("floundered at line 007\n", 6),
    ("out of range at line 12\n", 0),
    ("out of range at line \n", 6),
    ("answer 01\n", 6),
    ("answer 1\nderivation 0\nno more answers\n", 0),
    ("answer 1\nderivation 0\nanswer 3\n", 8),
    (
        "answer 1\nderivation 0\nanswer 2\nderivation 0\nanswer 3\n",
        10,
    ),
    ("answer 1\nderivation 2\ndead\nno more answers\n", 9),
    ("answer 1\nderivation 18446744073709551615\ndead\n", 9),
    ("answer 1\nderivation 18446744073709551616\ndead\n", 7),
    ("answer 1\nderivation 1\ndead\nsuccess\n", 9),
];

#[test]
fn texts_fit_up_to_a_line(rt: HostRuntime) -> Result<(), Fail> {
    let alloc = rt.alloc();
    for (text, line) in TEXTS {
        assert_eq!(rt; unfit_line(alloc, text.as_bytes())?, line);
    }
    for (lines, line) in REST {
        let text = after_head(alloc, lines)?;
        assert_eq!(rt; unfit_line(alloc, text.as_str().as_bytes())?, line);
    }
    assert_eq!(rt;
        unfit_line(alloc, b"=== certificates ===\nquery \xff\n")?,
        2
    );
    Ok(())
}

// The lines of a text up to a byte: one more than the LFs before it.
fn lines_before(text: &[u8]) -> u32 {
    let mut count = 1u32;
    for byte in text {
        if *byte == b'\n' {
            count = count.saturating_add(1);
        }
    }
    count
}

#[test]
fn a_cut_bundle_is_refused_where_it_ends(rt: HostRuntime) -> Result<(), Fail> {
    let alloc = rt.alloc();
    let text = WHOLE.as_bytes();
    // From the marker's LF on, a text that is cut doesn't fit at the line in which it is cut.
    for end in 34..text.len() {
        assert_eq!(rt;
            unfit_line(alloc, &text[..end])?,
            lines_before(&text[..end])
        );
    }
    Ok(())
}
