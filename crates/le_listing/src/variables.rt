ghost use Rattle.std.specs.Prelude.{◌≡◌, ◌∷◌, ◌++◌, IfOk, OnOk};
ghost use Rattle.le_terms.specs.Program.{form_terms, literals_terms, clause_terms};
ghost use Rattle.le_terms.specs.Variables.{place_in, firsts, occurrences, all_occurrences, all_variables};
ghost use Rattle.le_terms.specs.Walks.{symbol_variables, all_noted};
ghost use Rattle.le_listing.specs.ClauseText.{asked_vars};

use indexmap::IndexSet;
use le_terms::{Asked, Atom, Clause, Form, Literal, Sym, Term};
use std::alloc::{AllocError, Global};
use std::marker::Model;

/// The variables of a line, each once, in order of first occurrence, which contracts see as a list. The
/// place of a variable is looked up.
#[derive(Drop)]
pub struct Variables {
    set: IndexSet<u32>,
}

impl Model for Variables {
    ghost use Rattle.std.specs.Prelude.{ℕ, List};

    ghost Value = { List ℕ };

    ghost view = { λ v. v.set.keys };
}

impl Variables {
    /// The variables of a clause.
    pub fn of_clause(alloc: Global, clause: &Clause) -> Result<Self, AllocError>
        ensures { IfOk result (λ vars. vars ≡ all_variables (clause_terms clause.now)) }
    {
        let mut set = IndexSet::new(alloc);
        note_terms(&mut set, clause.head.args.as_slice())?;
        note_literals(&mut set, clause.body.as_slice())?;
        Ok(Variables { set })
    }

    /// The variables of a query: those that it asks for, and then those of its literals.
    pub fn of_query(alloc: Global, asked: &[Asked], query: &[Literal]) -> Result<Self, AllocError>
        ensures { IfOk result (λ vars. vars ≡ firsts (asked_vars asked.now ++ all_occurrences (literals_terms query.now))) }
    {
        let mut set = IndexSet::new(alloc);
        note_asked(&mut set, asked)?;
        note_literals(&mut set, query)?;
        Ok(Variables { set })
    }

    /// The place of a variable, from 1, or 0 where it isn't there.
    pub fn place(&self, var: u32) -> usize
        ensures { result ≡ place_in self.now var }
    {
        // A set's length fits, and so does a place from 1.
        let _count = self.set.len();
        match self.set.get_index_of(&var) {
            Some(place) => place + 1,
            None => 0,
        }
    }
}

// Notes the variables of some literals.
fn note_literals(set: &mut IndexSet<u32>, literals: &[Literal]) -> Result<(), AllocError>
    ensures { OnOk result (set.new.keys ≡ all_noted set.old.keys (all_occurrences (literals_terms literals.now))) }
{
    for literal in literals {
        note_form(set, &literal.form)?;
    }
    Ok(())
}

// Notes the variables of a literal's form.
fn note_form(set: &mut IndexSet<u32>, form: &Form) -> Result<(), AllocError>
    ensures { OnOk result (set.new.keys ≡ all_noted set.old.keys (all_occurrences (form_terms form.now))) }
{
    match form {
        Form::Pos(atom) => note_terms(set, atom.args.as_slice()),
        Form::Neg(atom) => note_terms(set, atom.args.as_slice()),
        Form::Calc(atom) => note_terms(set, atom.args.as_slice()),
        Form::Gather {
            fold: _,
            result: total,
            value,
            atom,
        } => note_gather(set, total, value, atom),
    }
}

// Notes the variables of a gather.
fn note_gather(
    set: &mut IndexSet<u32>,
    total: &Term,
    value: &Term,
    atom: &Atom,
) -> Result<(), AllocError>
    ensures { OnOk result (set.new.keys ≡ all_noted set.old.keys (all_occurrences (total.now ∷ value.now ∷ atom.now.args))) }
{
    note_term(set, total)?;
    note_term(set, value)?;
    note_terms(set, atom.args.as_slice())
}

// Notes the variables that are asked for.
fn note_asked(set: &mut IndexSet<u32>, asked: &[Asked]) -> Result<(), AllocError>
    ensures { OnOk result (set.new.keys ≡ all_noted set.old.keys (asked_vars asked.now)) }
{
    for one in asked {
        set.insert(one.var)?;
    }
    Ok(())
}

// Notes the variables of some terms.
fn note_terms(set: &mut IndexSet<u32>, terms: &[Term]) -> Result<(), AllocError>
    ensures { OnOk result (set.new.keys ≡ all_noted set.old.keys (all_occurrences terms.now)) }
{
    for term in terms {
        note_term(set, term)?;
    }
    Ok(())
}

// Notes the variables of a term.
fn note_term(set: &mut IndexSet<u32>, term: &Term) -> Result<(), AllocError>
    ensures { OnOk result (set.new.keys ≡ all_noted set.old.keys (occurrences term.now)) }
{
    note_syms(set, term.as_syms())
}

// Notes the variables among some symbols.
fn note_syms(set: &mut IndexSet<u32>, syms: &[Sym]) -> Result<(), AllocError>
    ensures { OnOk result (set.new.keys ≡ all_noted set.old.keys (symbol_variables syms.now)) }
{
    for sym in syms {
        if let Sym::Var(var) = *sym {
            set.insert(var)?;
        }
    }
    Ok(())
}
