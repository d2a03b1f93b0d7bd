use crate::{Doc, Sections, Spans, sections};
use le_base::Stop;
use le_layout::{Span, scan};
use std::alloc::{AllocError, Global};
use std::test::Fail;

/// A document as a text: each section with its kind, its name, its first token and its sentences.
fn doc_text(alloc: Global, doc: &Doc) -> Result<String, AllocError> {
    let mut out = String::new(alloc);
    for section in doc.sections.as_slice() {
        let kind = section.kind;
        let name = section.name.as_str();
        let at = section.at;
        write!(out, "{kind:?} {name} {at}:")?;
        for sentence in section.sentences.as_slice() {
            let Span { from, to } = *sentence;
            write!(out, " {from}..{to}")?;
        }
        out.push_str("\n")?;
    }
    Ok(out)
}

/// The sections of a text, or its refusal.
fn outcome(alloc: Global, text: &str) -> Result<String, AllocError> {
    if text.len() > 1000 {
        return String::from_str(alloc, "too long");
    }
    let Ok(layout) = scan(alloc, text.as_bytes()) else {
        return String::from_str(alloc, "no layout");
    };
    match sections(alloc, &layout) {
        Ok(doc) => doc_text(alloc, &doc),
        Err(Stop::Refused(refusal)) => {
            let name = refusal.code.name();
            let line = refusal.line;
            let column = refusal.column;
            format!(in alloc; "{name} {line}:{column}")
        }
        Err(Stop::Memory) => String::from_str(alloc, "no memory"),
    }
}

const CASES: [(&str, &str); 38] = [
    ("", ""),
    (
        "the templates are: *a* is up, *a, b* is\n down,, *c*.\n",
        "Templates  0: 4..9 10..12 13..17 19..22\n",
    ),
    (
        "scenario it's a/b is:\n\"b. c: d\", e.\n",
        "Scenario it's a/b 0: 5..8\n",
    ),
    ("scenario \"a\" is: b.\n", "UnknownHeader 1:1"),
    (
        "The Target language is: Prolog.\nthe templates are:\n*a* is up.\n. *a* is\n  down.\n",
        "Target  0: 5..6\nTemplates  7: 11..16 18..23\n",
    ),
    (
        "the knowledge base includes:\nscenario one two is:\na. b c\nd.\nquery is IS:\n e.\nthe knowledge base includes includes:\n",
        "Knowledge  0:\nScenario one two 5: 10..11 12..15\nQuery is 16: 20..21\nKnowledge includes 22:\n",
    ),
    (
        "scenario a is: b. query c.\nscenario A is:\nquery a is: b.\n",
        "Scenario a 0: 4..5 6..8\nScenario A 9:\nQuery a 13: 17..18\n",
    ),
    ("a.\nscenario a is:\n", "UnknownHeader 1:1"),
    ("scenario a is:\n b.\n c: d.\n", "UnknownHeader 3:2"),
    ("scenario a is: b: c.\n", "UnknownHeader 1:1"),
    ("scenario is:\n", "UnknownHeader 1:1"),
    (
        "query a b c d e f g h i j k l is: x.\n",
        "Query a b c d e f g h i j k l 0: 15..16\n",
    ),
    (
        "query a b c d e f g h i j k l m is: x.\n",
        "UnknownHeader 1:1",
    ),
    ("query * is: x.\n", "UnknownHeader 1:1"),
    ("the templates:\n", "UnknownHeader 1:1"),
    ("a the templates are:\n", "UnknownHeader 1:1"),
    ("scenario a is:\n b\n", "NoStop 2:2"),
    ("scenario a is:\n b\nscenario a is:\n", "NoStop 2:2"),
    ("scenario a is:\n b\n c: d\n", "NoStop 2:2"),
    (
        "scenario a is:\n b.\nscenario a is:\nscenario a is:\n",
        "SameName 3:1",
    ),
    ("query a is:\n b.\nquery a is:\n c. d.\n", "SameName 3:1"),
    ("query a is:\n b.\nquery a is:\n", "NoStop 3:1"),
    (
        "the knowledge base a includes:\nthe knowledge base a includes:\n",
        "Knowledge a 0:\nKnowledge a 6:\n",
    ),
    ("query a is:\n", "NoStop 1:1"),
    ("query a is:\n .\n", "NoStop 1:1"),
    ("query a is:\n b. c.\n", "UnknownHeader 2:5"),
    ("query a is:\n b. c\n", "UnknownHeader 2:5"),
    ("query a is:\n b\n", "NoStop 2:2"),
    ("the target language is: prolog..\n", "UnknownHeader 1:1"),
    ("the target language is: latin.\n", "UnknownHeader 1:1"),
    ("the target language is: prolog\n", "UnknownHeader 1:1"),
    ("the target language is: . prolog.\n", "UnknownHeader 1:1"),
    // A header with a second colon ends the section before it, and a line with a colon that is no
    // header doesn't.
    ("scenario a is:\n b\nscenario c is: d: e.\n", "NoStop 2:2"),
    ("scenario a is:\n b\n c: d.\n", "UnknownHeader 3:2"),
    (
        "scenario a is:\n b\n c: d\nscenario e is:\n f.\n",
        "NoStop 2:2",
    ),
    // At one place the lesser number decides.
    (
        "scenario a is:\nscenario a is: b: c.\n",
        "UnknownHeader 2:1",
    ),
    // The first line is the first that has a token.
    ("% c\n\nquery a is: b.\n", "Query a 0: 4..5\n"),
    ("% c\n\n  a.\nscenario a is:\n", "UnknownHeader 3:3"),
];

#[test]
fn sections_of_texts(rt: HostRuntime) -> Result<(), Fail> {
    for (text, expected) in CASES {
        let found = outcome(rt.alloc(), text)?;
        assert_eq!(rt; found.as_str(), expected, "{text:?}");
    }
    Ok(())
}

#[test]
fn sections_and_spans_of_vectors(rt: HostRuntime) -> Result<(), Fail> {
    let layout = scan(rt.alloc(), b"query a is: b.")?;
    let doc = sections(rt.alloc(), &layout)?;
    assert_eq!(rt; doc.sections.as_slice().len(), 1);
    let Doc { sections } = doc;
    let sections = Sections::from_vec(sections.into_vec());
    assert_eq!(rt; sections.as_slice().len(), 1);
    let mut spans = Vec::new(rt.alloc());
    spans.push(Span { from: 4, to: 5 })?;
    let spans = Spans::from_vec(Spans::from_vec(spans).into_vec());
    assert_eq!(rt;
        spans.as_slice(),
        sections.as_slice()[0].sentences.as_slice()
    );
    Ok(())
}
