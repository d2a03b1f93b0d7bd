ghost use Rattle.std.specs.Prelude.{◌≡◌, ℕ, ◌+◌, ◌^◌, ◌<◌, ◌≤◌, ◌∷◌, ◌++◌, List, drop, codes, IfOk, OnOk};
ghost use Rattle.le_templates.specs.declared.part.Part.{Part};
ghost use Rattle.le_listing.specs.ClauseText.{filled, parts_of, template_count, atom_text, fold_text, form_text, joint, body_text};

use crate::terms::{push_all, push_marked, push_number};
use crate::variables::Variables;
use le_base::{FoldKind, Text};
use le_clauses::Whole;
use le_templates::Part;
use le_terms::{Atom, Form, Literal, Names, Term};
use std::alloc::{AllocError, Global};

/// Appends a body: `if` before its first literal, and `and` before each other.
pub fn push_body(
    alloc: Global,
    text: &mut Text,
    whole: &Whole,
    vars: &Variables,
    literals: &[Literal],
) -> Result<(), AllocError>
    ensures { OnOk result (text.new ≡ text.old ++ body_text whole.now vars.now literals.now) }
{
    let mut is_first = true;
    for literal in literals {
        text.push_str(joint(is_first))?;
        push_form(alloc, text, whole, vars, &literal.form)?;
        is_first = false;
    }
    Ok(())
}

// The word before a literal of a body.
fn joint(is_first: bool) -> &'static str
    ensures { result.now ≡ joint is_first }
{
    if is_first { " if" } else { " and" }
}

// Appends a literal's form.
fn push_form(
    alloc: Global,
    text: &mut Text,
    whole: &Whole,
    vars: &Variables,
    form: &Form,
) -> Result<(), AllocError>
    ensures { OnOk result (text.new ≡ text.old ++ form_text whole.now vars.now form.now) }
{
    match form {
        Form::Pos(atom) => push_atom(alloc, text, whole, vars, atom),
        Form::Neg(atom) => {
            text.push_str(" not")?;
            push_atom(alloc, text, whole, vars, atom)
        }
        Form::Calc(atom) => push_atom(alloc, text, whole, vars, atom),
        Form::Gather {
            fold,
            result: total,
            value,
            atom,
        } => {
            push_marked(alloc, text, &whole.names, vars, total)?;
            text.push_str(" is the ")?;
            text.push_str(fold_word(*fold))?;
            text.push_str(" of each")?;
            push_marked(alloc, text, &whole.names, vars, value)?;
            text.push_str(" such that")?;
            push_atom(alloc, text, whole, vars, atom)
        }
    }
}

// What a gather makes of the values.
fn fold_word(fold: FoldKind) -> &'static str
    ensures { result.now ≡ fold_text fold }
{
    match fold {
        FoldKind::Sum => "sum",
        FoldKind::Number => "number",
        FoldKind::Greatest => "greatest",
    }
}

/// Appends an atom: the template with the arguments in its slots, or the number of the group and the
/// arguments.
pub fn push_atom(
    alloc: Global,
    text: &mut Text,
    whole: &Whole,
    vars: &Variables,
    atom: &Atom,
) -> Result<(), AllocError>
    ensures { OnOk result (text.new ≡ text.old ++ atom_text whole.now vars.now atom.now) }
{
    let count = template_count(whole);
    let args = atom.args.as_slice();
    if atom.pred < count {
        let parts = template_parts(whole, atom.pred);
        return push_filled(alloc, text, &whole.names, vars, parts, args);
    }
    text.push_str(" group ")?;
    push_number(text, atom.pred - count + 1)?;
    push_all(alloc, text, &whole.names, vars, args)
}

// How many predicates have a template.
fn template_count(whole: &Whole) -> u32
    ensures count { result ≡ template_count whole.now }
    ensures some { 20 ≤ result }
{
    20 + whole.templates.users()
}

// The words and slots of a predicate's template.
fn template_parts(whole: &Whole, pred: u32) -> &[Part]
    requires { pred < template_count whole.now }
    ensures { result.now ≡ parts_of whole.now pred }
{
    whole.templates.get(pred).parts.as_slice()
}

// Appends the words of a template, with terms in its slots.
fn push_filled(
    alloc: Global,
    text: &mut Text,
    names: &Names,
    vars: &Variables,
    parts: &[Part],
    args: &[Term],
) -> Result<(), AllocError>
    ensures { OnOk result (text.new ≡ text.old ++ filled names.now vars.now parts.now args.now) }
{
    let mut next = 0;
    for part in parts {
        next = push_part(alloc, text, names, vars, part, args, next)?;
    }
    Ok(())
}

// Appends a word, or a slot with the next term in it, and gives the place of the term after it.
fn push_part(
    alloc: Global,
    text: &mut Text,
    names: &Names,
    vars: &Variables,
    part: &Part,
    args: &[Term],
    next: usize,
) -> Result<usize, AllocError>
    ensures { IfOk result (λ after. (rest : List Part) → text.new ++ filled names.now vars.now rest (drop after args.now) ≡ text.old ++ filled names.now vars.now (part.now ∷ rest) (drop next args.now)) }
{
    match part {
        Part::Word(word) => {
            text.push_str(" ")?;
            text.push_str(word.as_str())?;
            Ok(next)
        }
        Part::Slot(phrase) => push_slot(alloc, text, names, vars, phrase, args, next),
    }
}

// Appends a slot with the next term in it, or with its own phrase where there is none, and gives the place
// of the term after it.
fn push_slot(
    alloc: Global,
    text: &mut Text,
    names: &Names,
    vars: &Variables,
    phrase: &Text,
    args: &[Term],
    next: usize,
) -> Result<usize, AllocError>
    ensures { IfOk result (λ after. (rest : List Part) → text.new ++ filled names.now vars.now rest (drop after args.now) ≡ text.old ++ filled names.now vars.now (Part.Slot phrase.now ∷ rest) (drop next args.now)) }
{
    if next < args.len() {
        push_marked(alloc, text, names, vars, &args[next])?;
        Ok(next + 1)
    } else {
        text.push_str(" *")?;
        text.push_str(phrase.as_str())?;
        text.push_str("*")?;
        Ok(next)
    }
}
