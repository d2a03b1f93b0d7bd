ghost use Rattle.le_terms.specs.Tree.{IsLeaf};

use crate::{say, say_term};
use le_base::Text;
use le_layout::{Span, scan};
use le_templates::Templates;
use le_terms::{Atom, Names, Sym, Term, Terms};
use std::alloc::{AllocError, Global};
use std::test::Fail;

// Declares the template that a short text spells.
fn declare(alloc: Global, templates: &mut Templates, text: &str) -> Result<(), Fail> {
    if text.len() < 1000 {
        let layout = scan(alloc, text.as_bytes())?;
        let count = layout.tokens.as_slice().len();
        if 0 < count && count < 1000 {
            let to = count as u32;
            templates.declare(&layout, Span { from: 0, to })?;
        }
    }
    Ok(())
}

// Templates 20 to 22: a sentence of the first is also one of the second, and the third has no slot.
fn templates(alloc: Global) -> Result<Templates, Fail> {
    let mut templates = Templates::new(alloc)?;
    declare(alloc, &mut templates, "*a person* is happy")?;
    declare(alloc, &mut templates, "*a person* says *a thing*")?;
    declare(alloc, &mut templates, "it rains")?;
    Ok(templates)
}

fn names(alloc: Global, texts: &[&str]) -> Result<Names, AllocError> {
    let mut names = Names::new(alloc);
    for text in texts {
        if names.count() < 1000 {
            names.number_of(*text)?;
        }
    }
    Ok(names)
}

// Names that are written as they are, and after them names that are quoted.
const PLAIN: [&str; 8] = [
    "Bob",
    "the car",
    "thing 5",
    "the thing five",
    "says happy",
    "Zoë’s café",
    "one two three four five six seven eight nine ten eleven twelve",
    "the one two three four five six seven eight nine ten eleven twelve",
];

const QUOTED: [&str; 33] = [
    "",
    " Bob",
    "Bob  Ann",
    "The car",
    "the person",
    "the thing",
    "the tall Person",
    "the thing 5",
    "the Thing 07",
    "a car",
    "An hour",
    "A",
    "every man",
    "another",
    "which car",
    "5",
    "-007",
    "2021-10-09",
    "5.5",
    "1,2",
    "+",
    "a / b",
    "if",
    "Ann and Bob",
    "it is the case that Bob",
    "It is not the case that",
    "Bob.",
    "Bob, Ann",
    "[Bob]",
    "*Bob*",
    "50%",
    "one two three four five six seven eight nine ten eleven twelve thirteen",
    "the one two three four five six seven eight nine ten eleven twelve thirteen",
];

// How many of some names are written between these marks.
fn written_so(
    alloc: Global,
    templates: &Templates,
    texts: &[&str],
    mark: &str,
) -> Result<usize, AllocError> {
    let names = names(alloc, texts)?;
    let mut count: usize = 0;
    for text in texts {
        if names.count() < 1000 {
            let number = names_place(&names, *text);
            let term = Term::leaf(alloc, Sym::Name(number))?;
            let said = say_term(alloc, templates, &names, &term)?;
            let expected = format!(in alloc; "{mark}{text}{mark}")?;
            if said.as_str() == expected.as_str() {
                count = count.saturating_add(1);
            }
        }
    }
    Ok(count)
}

// The number of a name, or one that no name has.
fn names_place(names: &Names, text: &str) -> u32 {
    let mut place = 1000;
    for number in 0..names.count() {
        if names.name(number) == text {
            place = number;
        }
    }
    place
}

#[test]
fn names_are_quoted_unless_they_read_back(rt: HostRuntime) -> Result<(), Fail> {
    let alloc = rt.alloc();
    let templates = templates(alloc)?;
    let plain = written_so(alloc, &templates, &PLAIN, "")?;
    let quoted = written_so(alloc, &templates, &QUOTED, "\"")?;
    assert_eq!(rt; [plain, quoted], [8, 33]);
    Ok(())
}

fn leaf(alloc: Global, symbol: Sym) -> Result<Term, AllocError>
    requires { IsLeaf symbol }
{
    Term::leaf(alloc, symbol)
}

fn cons(alloc: Global, head: Sym, tail: &Term) -> Result<Term, AllocError>
    requires { IsLeaf head }
{
    Term::cons(alloc, &Term::leaf(alloc, head)?, tail)
}

// A list whose first item is a list, and whose last tail is a variable.
fn nested(alloc: Global) -> Result<Term, AllocError> {
    let nil = leaf(alloc, Sym::Nil)?;
    let inner = cons(alloc, Sym::Var(4), &nil)?;
    let inner = cons(alloc, Sym::Num(-7), &inner)?;
    let open = cons(alloc, Sym::Day(-719162), &leaf(alloc, Sym::Var(9))?)?;
    let rest = cons(alloc, Sym::Var(4), &open)?;
    let rest = Term::cons(alloc, &nil, &rest)?;
    Term::cons(alloc, &inner, &rest)
}

// Appends a line with the sentence of a predicate with these arguments.
fn put(
    alloc: Global,
    out: &mut Text,
    templates: &Templates,
    names: &Names,
    pred: u32,
    args: Vec<Term>,
) -> Result<(), AllocError> {
    if pred < 1000 && pred < 20 + templates.users() {
        let args = Terms::from_vec(args);
        let said = say(alloc, templates, names, &Atom { pred, args })?;
        out.push_str(said.as_str())?;
    }
    out.push_str("\n")
}

// A predicate with at most two names or variables.
fn put_two(
    alloc: Global,
    out: &mut Text,
    templates: &Templates,
    names: &Names,
    pred: u32,
    first: u32,
    second: u32,
) -> Result<(), AllocError> {
    let mut args = Vec::new(alloc);
    args.push(named(alloc, first)?)?;
    if second < 200 {
        args.push(named(alloc, second)?)?;
    }
    put(alloc, out, templates, names, pred, args)
}

// The name of a number below 100, and above the variable of the number less 100.
fn named(alloc: Global, number: u32) -> Result<Term, AllocError> {
    if number < 100 {
        return Term::leaf(alloc, Sym::Name(number));
    }
    Term::leaf(alloc, Sym::Var(number - 100))
}

const SAID: [&str; 4] = ["Ann", "Bob is happy", "Ann says Bob", "2021-10-09"];

// Sentences, each on a line.
fn sentences(alloc: Global, templates: &Templates) -> Result<Text, AllocError> {
    let names = names(alloc, &SAID)?;
    let mut out = Text::new(alloc);
    let out = &mut out;
    put_two(alloc, out, templates, &names, 20, 0, 200)?;
    put_two(alloc, out, templates, &names, 21, 0, 1)?;
    put_two(alloc, out, templates, &names, 20, 2, 200)?;
    put_two(alloc, out, templates, &names, 21, 107, 107)?;
    put_two(alloc, out, templates, &names, 0, 3, 103)?;
    put_two(alloc, out, templates, &names, 21, 0, 200)?;
    put_two(alloc, out, templates, &names, 20, 0, 0)?;
    put(alloc, out, templates, &names, 22, Vec::new(alloc))?;
    put_listed(alloc, out, templates, &names)?;
    Text::of(alloc, out.as_str())
}

// A list, and a variable that stands in it.
fn put_listed(
    alloc: Global,
    out: &mut Text,
    templates: &Templates,
    names: &Names,
) -> Result<(), AllocError> {
    let mut args = Vec::new(alloc);
    args.push(nested(alloc)?)?;
    args.push(leaf(alloc, Sym::Var(9))?)?;
    put(alloc, out, templates, names, 21, args)
}

const SENTENCES: &str = "Ann is happy
*Ann* says *Bob is happy*
Ann says Bob is happy
a thing 7 says the thing 7
\"2021-10-09\" is equal to a thing 3
*Ann* says
Ann is happy
it rains
[[-7, a thing 4], [], the thing 4, 0001-01-01 | a thing 9] says the thing 9
";

#[test]
fn sentences_are_plain_where_they_read_alone(rt: HostRuntime) -> Result<(), Fail> {
    let alloc = rt.alloc();
    let text = sentences(alloc, &templates(alloc)?)?;
    assert_eq!(rt; text.as_str(), SENTENCES);
    Ok(())
}
