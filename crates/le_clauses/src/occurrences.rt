ghost use Rattle.std.specs.Prelude.{◌≡◌, ℕ, ◌+◌, ◌++◌, ◌≤◌, length, map, filter, get_or, nat_lt, [], ◌∷◌, IfOk, OnOk, if◌then◌else◌, ◌==◌};
ghost use Rattle.std.specs.List.{list_all};
ghost use Rattle.le_terms.specs.Tree.{variable};
ghost use Rattle.le_terms.specs.Variables.{firsts, occurrences, all_occurrences};
ghost use Rattle.le_terms.specs.Walks.{symbol_variables};
ghost use Rattle.le_clauses.specs.Groups.{count_in};
ghost use Rattle.le_clauses.specs.Walks.{is_alone as is_alone_part, head_by};
ghost use Rattle.le_clauses.specs.Occurrences.{AreTimes, part_vars, parts_vars, is_alone_atom};

use crate::part::Part;
use indexmap::IndexSet;
use le_terms::{Atom, Sym, Term, Terms};
use std::alloc::{AllocError, Global};
use std::marker::Model;

/// The variables of a rule or a query, each as often as it occurs, which contracts see as a list. How
/// often a variable occurs is looked up.
#[derive(Drop)]
pub struct Occurrences {
    all: Vec<u32>,
    times: Vec<usize>,
}

impl Model for Occurrences {
    ghost use Rattle.std.specs.Prelude.{ℕ, List};
    ghost use Rattle.le_clauses.specs.Occurrences.{AreTimes};

    ghost Value = { List ℕ };

    ghost view = { λ o. o.all.items };

    ghost invariant = { λ o. AreTimes o.all.items o.times.items };
}

impl Occurrences {
    /// The occurrences of a vector.
    pub fn of(alloc: Global, all: Vec<u32>) -> Result<Self, AllocError>
        ensures { IfOk result (λ o. o ≡ all.items) }
    {
        let times = times(alloc, &all)?;
        Ok(Occurrences { all, times })
    }

    /// How often a variable occurs.
    pub fn times(&self, var: u32) -> usize
        ensures { result ≡ count_in self.now var }
    {
        time_at(&self.times, var as usize)
    }
}

// How often each variable occurs.
fn times(alloc: Global, all: &[u32]) -> Result<Vec<usize>, AllocError>
    ensures { IfOk result (λ times. AreTimes all.now times.items) }
{
    let mut times = Vec::new(alloc);
    for var in all {
        note(&mut times, *var as usize)?;
    }
    Ok(times)
}

// How often a variable occurs by these counts.
fn time_at(times: &[usize], var: usize) -> usize
    ensures { result ≡ get_or times.now var 0 }
{
    match times.get(var) {
        Some(time) => *time,
        None => 0,
    }
}

// Counts a variable once more. No variable occurs 2^64 times, since a document has fewer tokens.
fn note(times: &mut Vec<usize>, var: usize) -> Result<(), AllocError>
    ensures { OnOk result ((v : ℕ) → get_or times.new.items v 0 ≡ get_or times.old.items v 0 + (if var == v then 1 else 0)) }
{
    extend(times, var)?;
    let before = times[var];
    if before == usize::MAX {
        return Err(AllocError);
    }
    times[var] = before + 1;
    Ok(())
}

// Adds zeros up to this place.
fn extend(times: &mut Vec<usize>, place: usize) -> Result<(), AllocError>
    ensures same { OnOk result ((v : ℕ) → get_or times.new.items v 0 ≡ get_or times.old.items v 0) }
    ensures long { OnOk result (place + 1 ≤ length times.new.items) }
{
    while times.len() <= place {
        times.push(0)?;
    }
    Ok(())
}

// How often a variable stands among some.
fn count(vars: &[u32], var: u32) -> usize
    ensures { result ≡ count_in vars.now var }
{
    let mut count = 0;
    for other in vars {
        if *other == var {
            count += 1;
        }
    }
    count
}

/// Some variables, each once, where it first occurs.
pub fn first_ones(alloc: Global, vars: &[u32]) -> Result<Vec<u32>, AllocError>
    ensures { IfOk result (λ first. first.items ≡ firsts vars.now) }
{
    let mut seen = IndexSet::new(alloc);
    for var in vars {
        seen.insert(*var)?;
    }
    Vec::from_slice(alloc, seen.as_slice())
}

// The variables of a group that also occur outside it, in order of first occurrence.
fn shared(alloc: Global, rule: &Occurrences, vars: &[u32]) -> Result<Vec<u32>, AllocError>
    ensures { IfOk result (λ shared. shared.items ≡ filter (λ v. nat_lt (count_in vars.now v) (count_in rule.now v)) (firsts vars.now)) }
{
    let first = first_ones(alloc, vars)?;
    outside(alloc, rule, vars, &first)
}

// Those of some variables that also occur outside a group with these.
fn outside(
    alloc: Global,
    rule: &Occurrences,
    vars: &[u32],
    first: &[u32],
) -> Result<Vec<u32>, AllocError>
    ensures { IfOk result (λ outside. outside.items ≡ filter (λ v. nat_lt (count_in vars.now v) (count_in rule.now v)) first.now) }
{
    let mut outside = Vec::new(alloc);
    for var in first {
        if is_outside(rule, vars, *var) {
            outside.push(*var)?;
        }
    }
    Ok(outside)
}

// Whether a variable also occurs outside a group with these.
fn is_outside(rule: &Occurrences, vars: &[u32], var: u32) -> bool
    ensures { result ≡ nat_lt (count_in vars.now var) (count_in rule.now var) }
{
    count(vars, var) < rule.times(var)
}

/// The atom of the auxiliary predicate of a group with these variables.
pub fn group_head(
    alloc: Global,
    rule: &Occurrences,
    pred: u32,
    vars: &[u32],
) -> Result<Atom, AllocError>
    ensures { IfOk result (λ atom. atom ≡ head_by rule.now pred vars.now) }
{
    let shared = shared(alloc, rule, vars)?;
    let args = variables(alloc, &shared)?;
    Ok(Atom {
        pred,
        args: Terms::from_vec(args),
    })
}

// The terms of some variables.
fn variables(alloc: Global, vars: &[u32]) -> Result<Vec<Term>, AllocError>
    ensures { IfOk result (λ terms. terms.items ≡ map variable vars.now) }
{
    let mut terms = Vec::new(alloc);
    for var in vars {
        terms.push(Term::leaf(alloc, Sym::Var(*var))?)?;
    }
    Ok(terms)
}

/// The variables of an atom from left to right, each as often as it occurs.
pub fn atom_vars(alloc: Global, atom: &Atom) -> Result<Vec<u32>, AllocError>
    ensures { IfOk result (λ vars. vars.items ≡ all_occurrences atom.now.args) }
{
    let mut vars = Vec::new(alloc);
    add_terms(&mut vars, atom.args.as_slice())?;
    Ok(vars)
}

/// Adds the variables of some terms.
pub fn add_terms(vars: &mut Vec<u32>, terms: &[Term]) -> Result<(), AllocError>
    ensures { OnOk result (vars.new.items ≡ vars.old.items ++ all_occurrences terms.now) }
{
    for term in terms {
        add_term(vars, term)?;
    }
    Ok(())
}

/// Adds the variables of a term.
pub fn add_term(vars: &mut Vec<u32>, term: &Term) -> Result<(), AllocError>
    ensures { OnOk result (vars.new.items ≡ vars.old.items ++ occurrences term.now) }
{
    add_syms(vars, term.as_syms())
}

// Adds the variables among some symbols.
fn add_syms(vars: &mut Vec<u32>, syms: &[Sym]) -> Result<(), AllocError>
    ensures { OnOk result (vars.new.items ≡ vars.old.items ++ symbol_variables syms.now) }
{
    for sym in syms {
        if let Sym::Var(var) = *sym {
            vars.push(var)?;
        }
    }
    Ok(())
}

/// Whether a part is an atom that stands for its group.
pub fn is_alone(alloc: Global, rule: &Occurrences, part: &Part) -> Result<bool, AllocError>
    ensures { IfOk result (λ b. b ≡ is_alone_part rule.now part.now) }
{
    match part {
        Part::Sentence { line: _, atom } => is_atom_alone(alloc, rule, atom),
        Part::And(_) | Part::Or(_) | Part::Not(_) | Part::ForAll(_) => Ok(false),
        Part::Gather {
            line: _,
            fold: _,
            result: _,
            value: _,
        } => Ok(false),
    }
}

// Whether an atom isn't computed and each of its variables also occurs outside it.
fn is_atom_alone(alloc: Global, rule: &Occurrences, atom: &Atom) -> Result<bool, AllocError>
    ensures { IfOk result (λ b. b ≡ is_alone_atom rule.now atom.now) }
{
    let vars = atom_vars(alloc, atom)?;
    Ok(atom.pred >= 18 && all_outside(rule, &vars))
}

// Whether each of some variables also occurs outside a group with these.
fn all_outside(rule: &Occurrences, vars: &[u32]) -> bool
    ensures { result ≡ list_all (λ v. nat_lt (count_in vars.now v) (count_in rule.now v)) vars.now }
{
    for var in vars {
        if !is_outside(rule, vars, *var) {
            return false;
        }
    }
    true
}

/// The variables of a rule with this head and these parts.
pub fn rule_occurrences(
    alloc: Global,
    head: &[u32],
    parts: &[Part],
) -> Result<Occurrences, AllocError>
    ensures { IfOk result (λ o. o ≡ head.now ++ parts_vars parts.now) }
{
    let mut all = Vec::from_slice(alloc, head)?;
    for part in parts {
        add_part(&mut all, part)?;
    }
    Occurrences::of(alloc, all)
}

// Adds the variables of a part.
fn add_part(vars: &mut Vec<u32>, part: &Part) -> Result<(), AllocError>
    ensures { OnOk result (vars.new.items ≡ vars.old.items ++ part_vars part.now) }
{
    match part {
        Part::Sentence { line: _, atom } => add_terms(vars, atom.args.as_slice()),
        Part::Gather {
            line: _,
            fold: _,
            result: res,
            value,
        } => add_gathered(vars, res, *value),
        Part::And(_) | Part::Or(_) | Part::Not(_) | Part::ForAll(_) => Ok(()),
    }
}

// Adds the variables of a gather's result and value.
fn add_gathered(vars: &mut Vec<u32>, total: &Term, value: u32) -> Result<(), AllocError>
    ensures { OnOk result (vars.new.items ≡ vars.old.items ++ (occurrences total.now ++ value ∷ [])) }
{
    add_term(vars, total)?;
    vars.push(value)?;
    Ok(())
}
