ghost use Rattle.std.specs.Prelude.{IfSome};
ghost use Rattle.le_layout.specs.Layout.{IsLayout};
ghost use Rattle.le_layout.specs.Words.{IsSomeSpan};

use crate::{BestReading, Reading, best, read, term};
use le_base::{Stop, Text};
use le_layout::{Layout, Span, scan};
use le_scope::Scope;
use le_templates::Templates;
use le_terms::{Names, Sym, Term};
use std::alloc::{AllocError, Global};
use std::test::Fail;

// The layout of a short text.
fn laid_out(alloc: Global, text: &str) -> Option<Layout>
    ensures { IfSome result IsLayout }
{
    if text.len() > 1000 {
        return None;
    }
    scan(alloc, text.as_bytes()).ok()
}

// All tokens of a text that has some.
fn whole(layout: &Layout) -> Option<Span>
    ensures { IfSome result (λ span. IsSomeSpan layout.now span) }
{
    let to = layout.tokens.as_slice().len();
    if to == 0 || to > 1000 {
        return None;
    }
    Some(Span {
        from: 0,
        to: to as u32,
    })
}

// A constant's name, a variable's number after a question mark, `(` for a cell and `nil` for the empty list.
fn put_symbol(out: &mut Text, names: &Names, symbol: Sym) -> Result<(), AllocError> {
    match symbol {
        Sym::Name(n) if n < names.count() => out.push_str(names.name(n)),
        Sym::Num(2) => out.push_str("2"),
        Sym::Var(0) => out.push_str("?0"),
        Sym::Var(1) => out.push_str("?1"),
        Sym::Nil => out.push_str("nil"),
        Sym::Cons => out.push_str("("),
        _ => out.push_str("?"),
    }
}

// The symbols of a term.
fn put_term(out: &mut Text, names: &Names, term: &Term) -> Result<(), AllocError> {
    for symbol in term.as_syms() {
        put_symbol(out, names, *symbol)?;
    }
    Ok(())
}

// Terms, each with a semicolon.
fn listed(alloc: Global, names: &Names, terms: &[Term]) -> Result<Text, AllocError> {
    let mut out = Text::new(alloc);
    for term in terms {
        put_term(&mut out, names, term)?;
        out.push_str(";")?;
    }
    Ok(out)
}

// A refusal's name, and the two readings that it shows.
fn refusal(alloc: Global, stop: &Stop) -> Result<Text, AllocError> {
    let Stop::Refused(refusal) = stop else {
        return Text::of(alloc, "no memory");
    };
    let mut out = Text::of(alloc, refusal.code.name())?;
    if refusal.column > 1 {
        out.push_str(" later")?;
    }
    out.push_str(refusal.first.as_str())?;
    out.push_str(refusal.second.as_str())?;
    Ok(out)
}

// The arguments of a sentence's atom, or its refusal.
fn told(
    alloc: Global,
    templates: &Templates,
    names: &mut Names,
    scope: &mut Scope,
    layout: &Layout,
) -> Result<Text, AllocError>
    requires { IsLayout layout.now }
{
    let Some(span) = whole(layout) else {
        return Ok(Text::new(alloc));
    };
    if names.count() > 1000 {
        return Ok(Text::new(alloc));
    }
    match read(alloc, layout, templates, names, scope, false, span) {
        Ok(atom) => listed(alloc, names, atom.args.as_slice()),
        Err(stop) => refusal(alloc, &stop),
    }
}

// Declares the template that a text spells.
fn declare(templates: &mut Templates, layout: &Layout) -> Result<(), Stop>
    requires { IsLayout layout.now }
{
    if let Some(span) = whole(layout) {
        templates.declare(layout, span)?;
    }
    Ok(())
}

const TEMPLATES: [&str; 3] = [
    "*a person* is happy",
    "*a person* likes *a thing*",
    "*a thing* is in *a place*",
];

const READ: [(&str, &str); 33] = [
    ("Bob IS Happy", "Bob;"),
    ("Bob is different from Ann", "Bob;Ann;"),
    ("Bob is in love likes Ann", "Bob;love likes Ann;"),
    ("Bob sees Ann", "NoReading"),
    ("Bob likes every car", "NoReading"),
    (
        "Bob likes Ann LIKES tea",
        "Ambiguous*Bob* likes *Ann LIKES tea**Bob likes Ann* LIKES *tea*",
    ),
    ("*Bob* likes *Ann LIKES tea*", "Bob;Ann LIKES tea;"),
    ("*Bob likes Ann* LIKES *tea*", "Bob likes Ann;tea;"),
    ("*Bob* likes Ann", "NoReading"),
    ("*Bob* likes *Ann", "NoReading"),
    ("*Bob* likes **", "NoReading"),
    ("*Bob* likes: *Ann*", "NoReading"),
    ("a man is happy", "?0;"),
    ("[An apple, the man | the APPLE] is happy", "(?1(?0?1;"),
    ("THE Man likes the APPLE", "?0;?1;"),
    ("Bob likes a MAN", "Again later"),
    ("which cat is happy", "WhichHere"),
    ("Bob likes the big PERSON", "Dangling later"),
    ("a bird likes a fish", "TooMany later"),
    ("the bird is happy", "the bird;"),
    ("Bob likes The tea", "Bob;the tea;"),
    ("[] likes [2]", "nil;(2nil;"),
    (
        "[Bob, Ann] likes [[], [Ann likes tea]]",
        "(Bob(Annnil;(nil((Ann likes teanilnil;",
    ),
    ("*[Bob | Ann]* likes *tea*", "(BobAnn;tea;"),
    ("[2, [a MAN]] is happy", "Again later"),
    ("[2 | the big PERSON] is happy", "Dangling later"),
    ("[2, [which cat]] is happy", "WhichHere later"),
    ("[a bird, [Bob | a fish]] is happy", "TooMany later"),
    ("[Bob,] is happy", "NoReading"),
    ("[| Bob] is happy", "NoReading"),
    ("[Bob | Ann, tea] is happy", "NoReading"),
    ("[Bob is happy", "NoReading"),
    ("[every car] is happy", "NoReading"),
];

// Declares the templates.
fn declared(alloc: Global) -> Result<Templates, Stop> {
    let mut templates = Templates::new(alloc)?;
    for text in &TEMPLATES {
        if let Some(layout) = laid_out(alloc, text) {
            declare(&mut templates, &layout)?;
        }
    }
    Ok(templates)
}

// Whether a sentence answers so.
fn answers(
    alloc: Global,
    templates: &Templates,
    names: &mut Names,
    scope: &mut Scope,
    row: (&str, &str),
) -> Result<bool, AllocError> {
    let Some(layout) = laid_out(alloc, row.0) else {
        return Ok(false);
    };
    let found = told(alloc, templates, names, scope, &layout)?;
    Ok(found.as_str() == row.1)
}

// Whether each row of the table holds, in one scope.
fn rows_hold(alloc: Global, templates: &Templates) -> Result<bool, AllocError> {
    let mut names = Names::new(alloc);
    let mut scope = Scope::with_limit(alloc, 3);
    for row in &READ {
        if !answers(alloc, templates, &mut names, &mut scope, *row)? {
            return Ok(false);
        }
    }
    Ok(scope.count() == 2)
}

#[test]
fn atoms_of_sentences(rt: HostRuntime) -> Result<(), Fail> {
    let alloc = rt.alloc();
    let templates = declared(alloc)?;
    assert!(rt; rows_hold(alloc, &templates)?);
    Ok(())
}

// The best reading of a sentence, or no lengths where there isn't one alone.
fn lengths(alloc: Global, layout: &Layout) -> Result<Option<Reading>, AllocError>
    requires { IsLayout layout.now }
{
    let templates = Templates::new(alloc)?;
    let Some(span) = whole(layout) else {
        return Ok(None);
    };
    match best(alloc, layout, &templates, span)? {
        BestReading::One(reading) => Ok(Some(reading)),
        _ => Ok(None),
    }
}

// The symbols of the term of a phrase in a query, whose first variable `which` introduced.
fn asked_symbols(alloc: Global, layout: &Layout) -> Result<Option<Vec<Sym>>, Stop>
    requires { IsLayout layout.now }
{
    let templates = Templates::new(alloc)?;
    let mut names = Names::new(alloc);
    let mut scope = Scope::with_limit(alloc, 1);
    let Some(span) = whole(layout) else {
        return Ok(None);
    };
    let found = term(
        alloc, layout, &templates, &mut names, &mut scope, true, span,
    )?;
    if scope.asked() != [0].as_slice() {
        return Ok(None);
    }
    Ok(Some(found.into_syms()))
}

#[test]
fn a_best_reading(rt: HostRuntime) -> Result<(), Fail> {
    let alloc = rt.alloc();
    let layout = scan(alloc, b"which cat is in a town")?;
    let Some(reading) = lengths(alloc, &layout)? else {
        return Err(Fail::from("not one reading"));
    };
    assert_eq!(rt; reading.lengths.as_slice(), [2, 2].as_slice());
    Ok(())
}

#[test]
fn a_term(rt: HostRuntime) -> Result<(), Fail> {
    let alloc = rt.alloc();
    let layout = scan(alloc, b"[which thing, 2]")?;
    let Some(symbols) = asked_symbols(alloc, &layout)? else {
        return Err(Fail::from("no term"));
    };
    let expected = [Sym::Cons, Sym::Var(0), Sym::Cons, Sym::Num(2), Sym::Nil];
    assert!(rt; symbols.as_slice() == expected.as_slice());
    Ok(())
}
