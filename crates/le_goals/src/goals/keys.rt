ghost use Rattle.std.specs.Prelude.{◌≡◌, ◌+◌, ◌<◌, ◌∷◌, [], length};
ghost use Rattle.std.specs.List.{AllByRecursion};
ghost use Rattle.le_terms.specs.Tree.{Tree, root};
ghost use Rattle.le_terms.specs.Variables.{replaced};
ghost use Rattle.le_terms.specs.Walks.{symbol_variables};
ghost use Rattle.le_terms.specs.Program.{IsProgram, form_atom};
ghost use Rattle.le_index.specs.Keys.{key_of, key_of_args, key_of_symbol};
ghost use Rattle.le_store.specs.Shown.{IsThere, Shows, Shown as AnyStore};
ghost use Rattle.le_proofs.specs.Goals.{terms_under};
ghost use Rattle.le_goals.specs.Frames.{cell_term, goal_of};
ghost use Rattle.le_goals.specs.Shown.{goal_at, literal_of, HasLiteral};
ghost use Rattle.le_goals.specs.State.{AreFrames};
ghost use Rattle.le_goals.specs.Parting.{laid_at};
ghost use Rattle.le_goals.specs.Unifying.{HasVariables};

use super::Goals;
use crate::finding::{atom_of, find, literals_in};
use crate::frames::Frame;
use le_index::key_of_symbol;
use le_store::{Look, Store};
use le_terms::{Program, Sym, Term};

impl<'p> Goals<'p> {
    /// The key of a literal's atom as it is now, by which an index finds the clauses that the atom may meet. It looks at
    /// the first symbol of the first argument alone.
    pub fn key_at(&self, goal: usize, place: usize) -> u32
        requires { HasLiteral self.now.now goal place }
        ensures { result ≡ key_of (form_atom (literal_of (goal_at self.now.now goal) place).form) }
    {
        key_in(
            self.program,
            &self.store,
            self.frames.as_slice(),
            goal,
            place,
        )
    }
}

// The key of the atom of a goal's literal.
fn key_in(program: &Program, store: &Store, frames: &[Frame], goal: usize, place: usize) -> u32
    requires program { IsProgram program.now }
    requires frames { AreFrames program.now (length store.now.now.terms) 0 frames.now }
    requires there { goal < length frames.now }
    requires literal { place < length (laid_at program.now frames.now goal).literals }
    ensures { result ≡ key_of (form_atom (literal_of (goal_of program.now store.now.now (laid_at program.now frames.now goal)) place).form) }
{
    let Some(spot) = find(frames, goal, place) else {
        return 0;
    };
    let literal = &literals_in(program, spot.part.source)[spot.part.from + spot.left];
    let args = atom_of(&literal.form).args.as_slice();
    key_of_args(store, args, spot.part.base)
}

// The key of arguments: that of the first one.
fn key_of_args(store: &Store, args: &[Term], base: usize) -> u32
    requires { HasVariables store.now base args.now }
    ensures { result ≡ key_of_args (terms_under (cell_term store.now.now base) args.now) }
{
    match args {
        [] => 0,
        [first, ..] => key_of_root(store, first.root(), base),
    }
}

// The key of a term of which this is the first symbol.
fn key_of_root(store: &Store, sym: Sym, base: usize) -> u32
    requires { AllByRecursion (λ v. IsThere store.now (base + v)) (symbol_variables (sym ∷ [])) }
    ensures { (term : Tree) → root term ≡ sym → result ≡ key_of_symbol (root (replaced (cell_term store.now.now base) term)) }
{
    match sym {
        Sym::Var(var) => key_of_look(store.look(store.cell_after(base, var))),
        _ => key_of_symbol(sym),
    }
}

// The key of the first symbol of a cell's term.
fn key_of_look(look: Look) -> u32
    ensures { (shown : AnyStore) (tree : Tree) → Shows shown tree look → result ≡ key_of_symbol (root tree) }
{
    match look {
        Look::Name(n) => key_of_symbol(Sym::Name(n)),
        Look::Num(z) => key_of_symbol(Sym::Num(z)),
        Look::Day(d) => key_of_symbol(Sym::Day(d)),
        Look::Nil => key_of_symbol(Sym::Nil),
        Look::Cons(_, _) => key_of_symbol(Sym::Cons),
        Look::Unbound(_) => 0,
    }
}
