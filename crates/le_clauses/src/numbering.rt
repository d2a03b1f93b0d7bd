ghost use Rattle.std.specs.Prelude.{◌≡◌, ◌∷◌, ◌++◌, map, length, IfOk, OnOk};
ghost use Rattle.le_terms.specs.Variables.{firsts, all_occurrences, replaced};
ghost use Rattle.le_terms.specs.Program.{form_terms, literals_terms, clause_terms};
ghost use Rattle.le_proofs.specs.Goals.{atom_under, form_under, literals_under};
ghost use Rattle.le_clauses.specs.Groups.{number_in, numbered as numbered_of};
ghost use Rattle.le_clauses.specs.Numbers.{by_place, numbered_sym as numbered_sym_of};

use crate::occurrences::{add_term, add_terms, first_ones};
use le_terms::{Atom, Clause, Form, Literal, Literals, Sym, Term, Terms};
use std::alloc::{AllocError, Global};

/// Some clauses, the variables of each numbered from 0 in order of first occurrence in head and body.
pub fn numbered_all(alloc: Global, clauses: &[Clause]) -> Result<Vec<Clause>, AllocError>
    ensures { IfOk result (λ new. new.items ≡ map numbered_of clauses.now) }
{
    let mut new = Vec::new(alloc);
    for clause in clauses {
        new.push(numbered(alloc, clause)?)?;
    }
    Ok(new)
}

/// A clause whose variables are numbered from 0 in order of first occurrence in head and body.
pub fn numbered(alloc: Global, clause: &Clause) -> Result<Clause, AllocError>
    ensures { IfOk result (λ new. new ≡ numbered_of clause.now) }
{
    let vars = clause_vars(alloc, clause)?;
    let count = small_count(&vars)?;
    Ok(Clause {
        head: atom_numbered(alloc, &vars, &clause.head)?,
        body: Literals::from_vec(literals_numbered(alloc, &vars, clause.body.as_slice())?),
        vars: count,
        line: clause.line,
        kind: clause.kind,
    })
}

/// How many variables there are. There can't be 2^30, since a document has fewer tokens.
pub fn small_count(vars: &[u32]) -> Result<u32, AllocError>
    ensures { IfOk result (λ n. n ≡ length vars.now) }
{
    if vars.len() >= 1 << 30 {
        return Err(AllocError);
    }
    Ok(vars.len() as u32)
}

// The variables of a clause in order of first occurrence.
fn clause_vars(alloc: Global, clause: &Clause) -> Result<Vec<u32>, AllocError>
    ensures { IfOk result (λ vars. vars.items ≡ firsts (all_occurrences (clause_terms clause.now))) }
{
    let mut vars = Vec::new(alloc);
    add_terms(&mut vars, clause.head.args.as_slice())?;
    add_literals(&mut vars, clause.body.as_slice())?;
    first_ones(alloc, &vars)
}

/// Adds the variables of some literals, each as often as it occurs.
pub fn add_literals(vars: &mut Vec<u32>, literals: &[Literal]) -> Result<(), AllocError>
    ensures { OnOk result (vars.new.items ≡ vars.old.items ++ all_occurrences (literals_terms literals.now)) }
{
    for literal in literals {
        add_form(vars, &literal.form)?;
    }
    Ok(())
}

// Adds the variables of a literal.
fn add_form(vars: &mut Vec<u32>, form: &Form) -> Result<(), AllocError>
    ensures { OnOk result (vars.new.items ≡ vars.old.items ++ all_occurrences (form_terms form.now)) }
{
    match form {
        Form::Pos(atom) => add_terms(vars, atom.args.as_slice()),
        Form::Neg(atom) => add_terms(vars, atom.args.as_slice()),
        Form::Calc(atom) => add_terms(vars, atom.args.as_slice()),
        Form::Gather {
            fold: _,
            result: res,
            value,
            atom,
        } => add_gather(vars, res, value, atom),
    }
}

// Adds the variables of a gather.
fn add_gather(
    vars: &mut Vec<u32>,
    total: &Term,
    value: &Term,
    atom: &Atom,
) -> Result<(), AllocError>
    ensures { OnOk result (vars.new.items ≡ vars.old.items ++ all_occurrences (total.now ∷ value.now ∷ atom.now.args)) }
{
    add_term(vars, total)?;
    add_term(vars, value)?;
    add_terms(vars, atom.args.as_slice())
}

/// Some literals, each variable of which has its place among some variables as its number.
pub fn literals_numbered(
    alloc: Global,
    vars: &[u32],
    literals: &[Literal],
) -> Result<Vec<Literal>, AllocError>
    ensures { IfOk result (λ new. new.items ≡ literals_under (by_place vars.now) literals.now) }
{
    let mut new = Vec::new(alloc);
    for literal in literals {
        new.push(Literal {
            line: literal.line,
            form: form_numbered(alloc, vars, &literal.form)?,
        })?;
    }
    Ok(new)
}

// A literal's form, numbered so.
fn form_numbered(alloc: Global, vars: &[u32], form: &Form) -> Result<Form, AllocError>
    ensures { IfOk result (λ new. new ≡ form_under (by_place vars.now) form.now) }
{
    match form {
        Form::Pos(atom) => Ok(Form::Pos(atom_numbered(alloc, vars, atom)?)),
        Form::Neg(atom) => Ok(Form::Neg(atom_numbered(alloc, vars, atom)?)),
        Form::Calc(atom) => Ok(Form::Calc(atom_numbered(alloc, vars, atom)?)),
        Form::Gather {
            fold,
            result: res,
            value,
            atom,
        } => Ok(Form::Gather {
            fold: *fold,
            result: term_numbered(alloc, vars, res)?,
            value: term_numbered(alloc, vars, value)?,
            atom: atom_numbered(alloc, vars, atom)?,
        }),
    }
}

// An atom, numbered so.
fn atom_numbered(alloc: Global, vars: &[u32], atom: &Atom) -> Result<Atom, AllocError>
    ensures { IfOk result (λ new. new ≡ atom_under (by_place vars.now) atom.now) }
{
    Ok(Atom {
        pred: atom.pred,
        args: Terms::from_vec(terms_numbered(alloc, vars, atom.args.as_slice())?),
    })
}

// Some terms, numbered so.
fn terms_numbered(alloc: Global, vars: &[u32], terms: &[Term]) -> Result<Vec<Term>, AllocError>
    ensures { IfOk result (λ new. new.items ≡ map (replaced (by_place vars.now)) terms.now) }
{
    let mut new = Vec::new(alloc);
    for term in terms {
        new.push(term_numbered(alloc, vars, term)?)?;
    }
    Ok(new)
}

// A term, numbered so.
fn term_numbered(alloc: Global, vars: &[u32], term: &Term) -> Result<Term, AllocError>
    ensures { IfOk result (λ new. new ≡ replaced (by_place vars.now) term.now) }
{
    let syms = syms_numbered(alloc, vars, term.as_syms())?;
    Ok(Term::from_syms(syms))
}

// Some symbols, numbered so.
fn syms_numbered(alloc: Global, vars: &[u32], syms: &[Sym]) -> Result<Vec<Sym>, AllocError>
    ensures { IfOk result (λ new. new.items ≡ map (numbered_sym_of vars.now) syms.now) }
{
    let mut new = Vec::new(alloc);
    for sym in syms {
        new.push(numbered_sym(vars, *sym)?)?;
    }
    Ok(new)
}

// A symbol, numbered so.
fn numbered_sym(vars: &[u32], sym: Sym) -> Result<Sym, AllocError>
    ensures { IfOk result (λ new. new ≡ numbered_sym_of vars.now sym) }
{
    match sym {
        Sym::Var(var) => Ok(Sym::Var(place(vars, var)?)),
        other => Ok(other),
    }
}

/// The place of a variable among some, from 0, or their count where it isn't there. There can't be
/// 2^30, since a document has fewer tokens.
pub fn place(vars: &[u32], var: u32) -> Result<u32, AllocError>
    ensures { IfOk result (λ n. n ≡ number_in vars.now var) }
{
    small_count(vars)?;
    let mut place = 0;
    for other in vars {
        if *other == var {
            return Ok(place);
        }
        place += 1;
    }
    Ok(place)
}
