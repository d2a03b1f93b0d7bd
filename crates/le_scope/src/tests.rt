use crate::phrase::word_form;
use crate::{Intro, ListPart, PhraseForm, Scope, list_parts, phrase_name, shape};
use le_layout::{Span, scan};
use std::alloc::{AllocError, Global};
use std::test::Fail;

// The form of the phrase that a text is, and the name that its tokens spell.
fn told(alloc: Global, text: &str) -> Result<String, AllocError> {
    if text.len() > 1000 {
        return String::from_str(alloc, "too long");
    }
    let Ok(layout) = scan(alloc, text.as_bytes()) else {
        return String::from_str(alloc, "no layout");
    };
    let to = layout.tokens.as_slice().len();
    if to > 1000 {
        return String::from_str(alloc, "too many");
    }
    let span = Span {
        from: 0,
        to: to as u32,
    };
    let name = phrase_name(alloc, &layout, span)?;
    let name = name.as_str();
    let form = match shape(alloc, &layout, span)? {
        Some(PhraseForm::A) => "a",
        Some(PhraseForm::The) => "the",
        Some(PhraseForm::Which) => "which",
        Some(PhraseForm::Constant) => "constant",
        Some(PhraseForm::List) => "list",
        Some(_) => "other",
        None => "none",
    };
    format!(in alloc; "{form}: {name}")
}

const PHRASES: [(&str, &str); 54] = [
    ("", "none: "),
    ("\"of the: 50%\"", "other: of the: 50%"),
    ("\"a\" \"b\"", "none: a b"),
    ("R&D + O’Neill", "none: R&D + O’Neill"),
    ("R&D O’Neill", "constant: R&D O’Neill"),
    ("the -", "none: the -"),
    ("Bob", "constant: Bob"),
    ("  Bob \n Smith", "constant: Bob Smith"),
    ("a", "none: a"),
    ("A", "none: A"),
    ("the", "none: the"),
    ("which", "none: which"),
    ("a car", "a: a car"),
    ("An apple", "a: An apple"),
    ("tHe car", "the: tHe car"),
    ("WHICH car", "which: WHICH car"),
    ("the A team", "the: the A team"),
    ("the a team", "none: the a team"),
    ("vitamin A", "constant: vitamin A"),
    ("vitamin a", "none: vitamin a"),
    ("vitamin an", "none: vitamin an"),
    ("man An", "constant: man An"),
    ("A A", "a: A A"),
    ("a the car", "a: a the car"),
    ("car the car", "constant: car the car"),
    ("the which car", "none: the which car"),
    ("car Which car", "none: car Which car"),
    ("what If", "none: what If"),
    ("now AND then", "none: now AND then"),
    ("one or more", "none: one or more"),
    ("a each", "none: a each"),
    ("Another car", "none: Another car"),
    ("every car", "none: every car"),
    (
        "It is NOT the case that x",
        "none: It is NOT the case that x",
    ),
    ("it is the Case that", "none: it is the Case that"),
    ("it is the case", "constant: it is the case"),
    ("it is not the case", "constant: it is not the case"),
    ("--5", "constant: --5"),
    ("a: b", "none: a : b"),
    (
        "b c d e f g h i j k l m",
        "constant: b c d e f g h i j k l m",
    ),
    (
        "b c d e f g h i j k l m n",
        "none: b c d e f g h i j k l m n",
    ),
    ("[]", "list: [ ]"),
    ("[1 | x]", "list: [ 1 | x ]"),
    (
        "[[a car], \"of\", [] | [b, 2024-01-01]]",
        "list: [ [ a car ] , of , [ ] | [ b , 2024-01-01 ] ]",
    ),
    ("[b] c", "none: [ b ] c"),
    ("[", "none: ["),
    ("[b,", "none: [ b ,"),
    ("[b, ]", "none: [ b , ]"),
    ("[, b]", "none: [ , b ]"),
    ("[b | c, d]", "none: [ b | c , d ]"),
    ("[b | c | d]", "none: [ b | c | d ]"),
    ("[ | b]", "none: [ | b ]"),
    ("[every car]", "none: [ every car ]"),
    ("[b c [d]]", "none: [ b c [ d ] ]"),
];

#[test]
fn forms_of_phrases(rt: HostRuntime) -> Result<(), Fail> {
    let alloc = rt.alloc();
    for (text, expected) in PHRASES {
        let found = told(alloc, text)?;
        assert_eq!(rt; found.as_str(), expected);
    }
    Ok(())
}

// The symbols of the term of the list that a text is.
fn symbols(alloc: Global, text: &str) -> Result<String, AllocError> {
    let mut told = String::new(alloc);
    if text.len() > 1000 {
        return Ok(told);
    }
    let Ok(layout) = scan(alloc, text.as_bytes()) else {
        return Ok(told);
    };
    let to = layout.tokens.as_slice().len();
    if to > 1000 {
        return Ok(told);
    }
    let span = Span {
        from: 0,
        to: to as u32,
    };
    let Some(PhraseForm::List) = shape(alloc, &layout, span)? else {
        return Ok(told);
    };
    for part in list_parts(alloc, &layout, span)?.as_slice() {
        match part {
            ListPart::Cell => told.push_str("cell ")?,
            ListPart::End => told.push_str("end ")?,
            ListPart::Item(item) => {
                let name = phrase_name(alloc, &layout, *item)?;
                told.push_str(name.as_str())?;
                told.push_str(" ")?;
            }
        }
    }
    Ok(told)
}

const LISTS: [(&str, &str); 6] = [
    ("[]", "end "),
    ("[b]", "cell b end "),
    ("[b, c d | e]", "cell b cell c d e "),
    ("[[b] | [c]]", "cell cell b end cell c end "),
    (
        "[[], [b | []], the x]",
        "cell end cell cell b end cell the x end ",
    ),
    ("[b | c, d]", ""),
];

#[test]
fn symbols_of_lists(rt: HostRuntime) -> Result<(), Fail> {
    let alloc = rt.alloc();
    for (text, expected) in LISTS {
        let found = symbols(alloc, text)?;
        assert_eq!(rt; found.as_str(), expected);
    }
    let mut deep = String::new(alloc);
    for _ in 0..100 {
        deep.push_str("[")?;
    }
    for _ in 0..100 {
        deep.push_str("]")?;
    }
    let found = symbols(alloc, deep.as_str())?;
    assert_eq!(rt; found.as_str().len(), 99 * 5 + 4 + 99 * 4);
    Ok(())
}

const WORDS: [(&str, PhraseForm); 6] = [
    ("-05", PhraseForm::Number(-5)),
    ("-0", PhraseForm::Number(0)),
    ("1970-01-02", PhraseForm::Day(1)),
    ("1969-12-31", PhraseForm::Day(-1)),
    ("2024-01-01x", PhraseForm::Constant),
    ("--5", PhraseForm::Constant),
];

#[test]
fn forms_of_words(rt: HostRuntime) -> Result<(), Fail> {
    for (word, expected) in WORDS {
        assert!(rt; word_form(word) == expected);
    }
    Ok(())
}

const INTRODUCED: [(&str, Intro); 6] = [
    ("Car", Intro::New(0)),
    ("cAR", Intro::Again),
    ("big car", Intro::New(1)),
    ("cars", Intro::Full),
    ("BIG car", Intro::Again),
    ("cars", Intro::Full),
];

#[test]
fn names_in_a_scope(rt: HostRuntime) -> Result<(), Fail> {
    let alloc = rt.alloc();
    let mut scope = Scope::with_limit(alloc, 2);
    for (name, expected) in INTRODUCED {
        let found = if name == "big car" {
            scope.ask(name)?
        } else {
            scope.introduce(name)?
        };
        assert!(rt; found == expected);
    }
    assert_eq!(rt; scope.count(), 2);
    assert!(rt; scope.refer("CAR") == Some(0) && scope.refer("Big Car") == Some(1));
    assert!(rt; scope.refer("cars").is_none());
    assert!(rt; scope.asked() == [1].as_slice());
    scope.truncate(1);
    assert!(rt; scope.asked().is_empty());
    assert!(rt; scope.refer("big car").is_none());
    assert_eq!(rt; scope.count(), 1);
    if scope.count() == 1 {
        assert_eq!(rt; scope.name(0), "Car");
    }
    let mut closed = Scope::with_limit(alloc, 0);
    assert!(rt; closed.introduce("car")? == Intro::Full && closed.count() == 0);
    Ok(())
}
