ghost use Rattle.std.specs.Prelude.{◌≡◌, ◌+◌, ◌<◌, ◌∷◌, [], length, IfOk};
ghost use Rattle.std.specs.List.{AllByRecursion};
ghost use Rattle.le_terms.specs.Variables.{all_occurrences};
ghost use Rattle.le_terms.specs.Walks.{symbol_variables};
ghost use Rattle.le_terms.specs.Program.{IsProgram, form_atom};
ghost use Rattle.le_store.specs.Shown.{IsThere, term_of};
ghost use Rattle.le_proofs.specs.Goals.{is_ground_atom};
ghost use Rattle.le_goals.specs.Frames.{cell_term, goal_of};
ghost use Rattle.le_goals.specs.Shown.{goal_at, literal_of, HasLiteral};
ghost use Rattle.le_goals.specs.State.{AreFrames};
ghost use Rattle.le_goals.specs.Parting.{laid_at};
ghost use Rattle.le_goals.specs.Unifying.{HasVariables};
ghost use Rattle.le_goals.specs.NoVariables.{has_no_variable, have_no_variable};

use super::Goals;
use crate::finding::{atom_of, find, literals_in};
use crate::frames::Frame;
use le_store::{Look, Store};
use le_terms::{Program, Sym, Term};
use std::alloc::{AllocError, Global};

impl<'p> Goals<'p> {
    /// Whether a literal's atom has no variable as it is now. No term is copied.
    pub fn is_ground_at(&self, alloc: Global, goal: usize, place: usize) -> Result<bool, AllocError>
        requires { HasLiteral self.now.now goal place }
        ensures { IfOk result (λ answer. answer ≡ is_ground_atom (form_atom (literal_of (goal_at self.now.now goal) place).form)) }
    {
        let frames = self.frames.as_slice();
        is_ground_in(alloc, self.program, &self.store, frames, goal, place)
    }
}

// Whether the atom of a goal's literal has no variable.
fn is_ground_in(
    alloc: Global,
    program: &Program,
    store: &Store,
    frames: &[Frame],
    goal: usize,
    place: usize,
) -> Result<bool, AllocError>
    requires program { IsProgram program.now }
    requires frames { AreFrames program.now (length store.now.now.terms) 0 frames.now }
    requires there { goal < length frames.now }
    requires literal { place < length (laid_at program.now frames.now goal).literals }
    ensures { IfOk result (λ answer. answer ≡ is_ground_atom (form_atom (literal_of (goal_of program.now store.now.now (laid_at program.now frames.now goal)) place).form)) }
{
    let Some(spot) = find(frames, goal, place) else {
        return Ok(true);
    };
    let literal = &literals_in(program, spot.part.source)[spot.part.from + spot.left];
    let args = atom_of(&literal.form).args.as_slice();
    are_ground(alloc, store, args, spot.part.base)
}

// Whether the cells of the variables of terms have no variable.
fn are_ground(alloc: Global, store: &Store, terms: &[Term], base: usize) -> Result<bool, AllocError>
    requires { HasVariables store.now base terms.now }
    ensures { IfOk result (λ answer. answer ≡ have_no_variable (cell_term store.now.now base) (all_occurrences terms.now)) }
{
    for term in terms {
        if !are_ground_syms(alloc, store, term.as_syms(), base)? {
            return Ok(false);
        }
    }
    Ok(true)
}

// The same of symbols.
fn are_ground_syms(
    alloc: Global,
    store: &Store,
    syms: &[Sym],
    base: usize,
) -> Result<bool, AllocError>
    requires { AllByRecursion (λ v. IsThere store.now (base + v)) (symbol_variables syms.now) }
    ensures { IfOk result (λ answer. answer ≡ have_no_variable (cell_term store.now.now base) (symbol_variables syms.now)) }
{
    for sym in syms {
        if !is_ground_sym(alloc, store, *sym, base)? {
            return Ok(false);
        }
    }
    Ok(true)
}

// The same of one symbol.
fn is_ground_sym(alloc: Global, store: &Store, sym: Sym, base: usize) -> Result<bool, AllocError>
    requires { AllByRecursion (λ v. IsThere store.now (base + v)) (symbol_variables (sym ∷ [])) }
    ensures { IfOk result (λ answer. answer ≡ have_no_variable (cell_term store.now.now base) (symbol_variables (sym ∷ []))) }
{
    match sym {
        Sym::Var(var) => is_ground_cell(alloc, store, store.cell_after(base, var)),
        _ => Ok(true),
    }
}

// Whether a cell's term has no variable.
fn is_ground_cell(alloc: Global, store: &Store, cell: usize) -> Result<bool, AllocError>
    requires { IsThere store.now cell }
    ensures { IfOk result (λ answer. answer ≡ has_no_variable (term_of store.now cell)) }
{
    let mut rest = Vec::new(alloc);
    rest.push(cell)?;
    while let Some(at) = rest.pop() {
        match store.look(at) {
            Look::Unbound(_) => return Ok(false),
            Look::Cons(head, tail) => {
                rest.push(tail)?;
                rest.push(head)?;
            }
            _ => {}
        }
    }
    Ok(true)
}
