use crate::{Part, Parts, Template, Templates};
use le_base::Stop;
use le_layout::{Span, scan};
use std::alloc::{AllocError, Global};
use std::test::Fail;

// A template as it is written.
fn told(alloc: Global, template: &Template) -> Result<String, AllocError> {
    let mut out = String::new(alloc);
    for part in template.parts.as_slice() {
        if !out.is_empty() {
            out.push_str(" ")?;
        }
        match part {
            Part::Word(word) => out.push_str(word.as_str())?,
            Part::Slot(phrase) => {
                let phrase = phrase.as_str();
                write!(out, "*{phrase}*")?;
            }
        }
    }
    Ok(out)
}

// What declaring a text answers.
fn declared(alloc: Global, templates: &mut Templates, text: &str) -> Result<String, AllocError> {
    if text.len() > 10000 {
        return String::from_str(alloc, "long");
    }
    let Ok(layout) = scan(alloc, text.as_bytes()) else {
        return String::from_str(alloc, "no layout");
    };
    let to = layout.tokens.as_slice().len();
    if to == 0 || to > 10000 {
        return String::from_str(alloc, "no tokens");
    }
    let span = Span {
        from: 0,
        to: to as u32,
    };
    match templates.declare(&layout, span) {
        Ok(pred) => format!(in alloc; "{pred}"),
        Err(Stop::Refused(refusal)) => {
            let name = refusal.code.name();
            let line = refusal.line;
            let column = refusal.column;
            format!(in alloc; "{name} {line}:{column}")
        }
        Err(Stop::Memory) => String::from_str(alloc, "no memory"),
    }
}

const DECLARED: [(&str, &str); 25] = [
    (" *a person*", "BadTemplate 1:2"),
    ("\t*a person", "BadTemplate 1:5"),
    ("*a, b* is up", "BadTemplate 1:1"),
    ("*a* is \"up\"", "BadTemplate 1:1"),
    ("*a person* is happy", "20"),
    ("\n  *a child* IS happy", "SameTemplate 2:3"),
    ("*a thing* is in *a place*", "21"),
    ("*a person* is *happy", "BadTemplate 1:1"),
    ("*a person* is ** happy", "BadTemplate 1:1"),
    ("*a person*: is happy", "BadTemplate 1:1"),
    ("*a per. son* is happy", "BadTemplate 1:1"),
    ("*x* knows If *y*", "BadTemplate 1:1"),
    ("*x* is eaCh *y*", "BadTemplate 1:1"),
    ("And *x* sleeps", "BadTemplate 1:1"),
    ("or *x* sleeps", "BadTemplate 1:1"),
    ("It is not the case that *x*", "BadTemplate 1:1"),
    ("it is the CASE that *x*", "BadTemplate 1:1"),
    ("for all cases in which *x*", "BadTemplate 1:1"),
    ("*it* is not the case that *x*", "22"),
    ("it is the case", "23"),
    ("*a b c d e f g h i j k l* jumps", "24"),
    ("*a b c d e f g h i j k l m* leaps", "BadTemplate 1:1"),
    ("*a* w *a* w *a* w *a* w *a* w *a* w *a* w *a*", "25"),
    (
        "*a* x *a* x *a* x *a* x *a* x *a* x *a* x *a* x *a*",
        "BadTemplate 1:1",
    ),
    (
        "w w w w w w w w w w w w w w w w w w w w w w w w w w w w w w w w w w w w w w w w w",
        "BadTemplate 1:1",
    ),
];

#[test]
fn templates_are_declared(rt: HostRuntime) -> Result<(), Fail> {
    let alloc = rt.alloc();
    let mut templates = Templates::new(alloc)?;
    for (text, expected) in DECLARED {
        let found = declared(alloc, &mut templates, text)?;
        assert_eq!(rt; found.as_str(), expected, "{text:?}");
    }
    assert_eq!(rt; templates.users(), 6);
    assert!(rt; !templates.in_use(18));
    assert!(rt; templates.in_use(17) && templates.in_use(19) && templates.in_use(20));
    assert!(rt; templates.ends_slot("PERSON") && templates.ends_slot("l"));
    assert!(rt; !templates.ends_slot("child") && !templates.ends_slot("number"));
    assert!(rt; !templates.ends_slot("happy") && !templates.ends_slot("w"));
    Ok(())
}

const PREDEFINED: [&str; 20] = [
    "*a thing* is equal to *a thing*",
    "*a thing* is different from *a thing*",
    "*a number* is greater than *a number*",
    "*a number* is less than *a number*",
    "*a number* is at least *a number*",
    "*a number* is at most *a number*",
    "*a date* is before *a date*",
    "*a date* is after *a date*",
    "*a date* is on or before *a date*",
    "*a date* is on or after *a date*",
    "*a number* is *a number* plus *a number*",
    "*a number* is *a number* minus *a number*",
    "*a number* is *a number* times *a number*",
    "*a number* is *a number* divided by *a number*",
    "*a date* is *a number* days after *a date*",
    "*a date* is *a number* months after *a date*",
    "*a number* is the number of days from *a date* to *a date*",
    "*a number* is the length of *a list*",
    "*a thing* is in *a list*",
    "*a list* followed by *a list* is *a list*",
];

#[test]
fn predefined_templates(rt: HostRuntime) -> Result<(), Fail> {
    let alloc = rt.alloc();
    let templates = Templates::new(alloc)?;
    for pred in 0..20 {
        let shown = told(alloc, templates.get(pred))?;
        let expected = PREDEFINED[pred as usize];
        assert_eq!(rt; shown.as_str(), expected);
        assert!(rt; templates.in_use(pred));
    }
    assert!(rt; !templates.ends_slot("thing"));
    let parts = Parts::from_vec(Vec::new(alloc));
    assert_eq!(rt; parts.into_vec().len(), 0);
    Ok(())
}
