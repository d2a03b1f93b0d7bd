ghost use Rattle.std.specs.Prelude.{◌≡◌, ℕ, ◌+◌, ◌<◌, ◌≤◌, Bool, true, false, List, [], ◌∷◌, ◌++◌, length, IfOk, OnOk, IsTrue, IsFalse};
ghost use Rattle.le_terms.specs.Tree.{Tree, variable};
ghost use Rattle.le_subst.specs.Solution.{occurs, solve_of, move, dropped, contradictory};
ghost use Rattle.le_store.specs.Shown.{Shown, term_of, IsThere, IsUnbound, Shows, AreRising};
ghost use Rattle.le_store.specs.declared.store.Look.TheVariants.{Unbound};
ghost use Rattle.le_unify.specs.Unifying.{HasSameCells, Unifies, IsGeneral, equations_in, AreThere, StepMeans, PairMeans, IsRigid, IsLeaf};

use le_store::{Look, Store};
use std::alloc::{AllocError, Global};

// What is found on the way to the first binding.
#[derive(Clone, Copy, Debug)]
enum Step {
    // No equation is left.
    Solved,
    // They contradict.
    Failed,
    // A variable is to be bound to a cell.
    Bind { var: usize, to: usize },
}

/// Binds variables so that the terms of two cells are equal: `true`, and each cell's term is then its
/// term under the most general unifier of the two. `false` comes exactly where no unifier exists. After
/// `false` and out of memory some variables may be bound, which undoing to a mark takes back.
pub fn unify(alloc: Global, store: &mut Store, a: usize, b: usize) -> Result<bool, AllocError>
    requires first { IsThere store.old a }
    requires second { IsThere store.old b }
    ensures unified { IfOk result (λ answer. Unifies store.old store.new ((term_of store.old a, term_of store.old b) ∷ []) answer) }
    ensures general { IfOk result (λ answer. IsGeneral store.old store.new ((term_of store.old a, term_of store.old b) ∷ []) answer) }
    ensures same { HasSameCells store.old store.new }
{
    let mut work = Vec::new(alloc);
    work.push((a, b))?;
    unify_pairs(alloc, store, &mut work)
}

/// The same of several pairs of cells at once, whose first equation is that of the last pair. The pairs
/// are taken away, whatever the answer, so that their memory can be used again.
pub fn unify_pairs(
    alloc: Global,
    store: &mut Store,
    pairs: &mut Vec<(usize, usize)>,
) -> Result<bool, AllocError>
    requires { AreThere store.old pairs.old.items }
    ensures unified { IfOk result (λ answer. Unifies store.old store.new (equations_in store.old.now pairs.old.items []) answer) }
    ensures general { IfOk result (λ answer. IsGeneral store.old store.new (equations_in store.old.now pairs.old.items []) answer) }
    ensures same { HasSameCells store.old store.new }
    ensures taken { pairs.new.items ≡ [] }
{
    let answer = solve(alloc, store, pairs);
    pairs.clear();
    answer
}

// Binds variables until the terms of each pair are equal.
fn solve(
    alloc: Global,
    store: &mut Store,
    work: &mut Vec<(usize, usize)>,
) -> Result<bool, AllocError>
    requires { AreThere store.old work.old.items }
    ensures unified { IfOk result (λ answer. Unifies store.old store.new (equations_in store.old.now work.old.items []) answer) }
    ensures same { HasSameCells store.old store.new }
{
    'pairs: loop {
        match next_step(store, work)? {
            Step::Solved => return Ok(true),
            Step::Failed => return Ok(false),
            Step::Bind { var, to } => {
                if occurs_in(alloc, store, var, to)? {
                    return Ok(false);
                }
                store.reserve(0, 1, 0)?;
                store.bind(var, to);
            }
        }
    }
}

// The first binding that the pairs ask for, taking away those before it.
fn next_step(store: &Store, work: &mut Vec<(usize, usize)>) -> Result<Step, AllocError>
    requires { AreThere store.now work.old.items }
    ensures there { AreThere store.now work.new.items }
    ensures step { IfOk result (λ step. StepMeans store.now step (equations_in store.now.now work.old.items []) (equations_in store.now.now work.new.items [])) }
{
    while let Some((left, right)) = work.pop() {
        match pair_step(store, left, right) {
            PairStep::Same => {}
            PairStep::Different => return Ok(Step::Failed),
            PairStep::Parts {
                head,
                other_head,
                tail,
                other_tail,
            } => {
                work.push((tail, other_tail))?;
                work.push((head, other_head))?;
            }
            PairStep::Against { var, to } => return Ok(Step::Bind { var, to }),
        }
    }
    Ok(Step::Solved)
}

// What one pair of cells asks for.
#[derive(Clone, Copy, Debug)]
enum PairStep {
    // Nothing.
    Same,
    // What can't be.
    Different,
    // That the heads and the tails are equal.
    Parts {
        head: usize,
        other_head: usize,
        tail: usize,
        other_tail: usize,
    },
    // That a variable is bound to a cell.
    Against {
        var: usize,
        to: usize,
    },
}

fn pair_step(store: &Store, left: usize, right: usize) -> PairStep
    requires left { IsThere store.now left }
    requires right { IsThere store.now right }
    ensures { PairMeans store.now (term_of store.now left) (term_of store.now right) result }
{
    let first = store.look(left);
    let second = store.look(right);
    match first {
        Look::Unbound(var) => match second {
            Look::Unbound(other) => two_variables(var, other),
            _ => PairStep::Against {
                var,
                to: store.follow(right),
            },
        },
        _ => match second {
            Look::Unbound(var) => PairStep::Against {
                var,
                to: store.follow(left),
            },
            _ => rigid_step(first, second),
        },
    }
}

// Of two variables the one with the higher number is bound.
fn two_variables(var: usize, other: usize) -> PairStep
    ensures { (shown : Shown) (x y : Tree) → AreRising 0 shown.now.variables → Shows shown x (Unbound var) → Shows shown y (Unbound other) → PairMeans shown x y result }
{
    if var < other {
        PairStep::Against {
            var: other,
            to: var,
        }
    } else if other < var {
        PairStep::Against { var, to: other }
    } else {
        PairStep::Same
    }
}

// Of two terms that aren't variables.
fn rigid_step(first: Look, second: Look) -> PairStep
    requires first { IsRigid first }
    requires second { IsRigid second }
    ensures { (shown : Shown) (x y : Tree) → Shows shown x first → Shows shown y second → PairMeans shown x y result }
{
    match first {
        Look::Cons(head, tail) => match second {
            Look::Cons(other_head, other_tail) => PairStep::Parts {
                head,
                other_head,
                tail,
                other_tail,
            },
            _ => PairStep::Different,
        },
        _ => {
            if same_leaf(first, second) {
                PairStep::Same
            } else {
                PairStep::Different
            }
        }
    }
}

// Whether both show the same constant, number or date, or the empty list.
fn same_leaf(first: Look, second: Look) -> bool
    requires first { IsRigid first }
    requires second { IsRigid second }
    ensures same { IsTrue result → (shown : Shown) (x y : Tree) → Shows shown x first → Shows shown y second → move x y ≡ dropped }
    ensures different { IsFalse result → IsLeaf first → (shown : Shown) (x y : Tree) → Shows shown x first → Shows shown y second → move x y ≡ contradictory }
{
    match first {
        Look::Name(n) => match second {
            Look::Name(m) => m == n,
            _ => false,
        },
        Look::Num(z) => match second {
            Look::Num(y) => y == z,
            _ => false,
        },
        Look::Day(d) => match second {
            Look::Day(c) => c == d,
            _ => false,
        },
        Look::Nil => matches!(second, Look::Nil),
        _ => false,
    }
}

// Whether a variable that isn't bound occurs in a cell's term.
fn occurs_in(alloc: Global, store: &Store, var: usize, cell: usize) -> Result<bool, AllocError>
    requires var { (v : ℕ) × IsUnbound store.now var v }
    requires there { IsThere store.now cell }
    ensures { IfOk result (λ answer. (v : ℕ) → term_of store.now var ≡ variable v → answer ≡ occurs v (term_of store.now cell)) }
{
    let mut rest = Vec::new(alloc);
    rest.push(cell)?;
    while let Some(at) = rest.pop() {
        match store.look(at) {
            Look::Unbound(other) => {
                if other == var {
                    return Ok(true);
                }
            }
            Look::Cons(head, tail) => {
                rest.push(tail)?;
                rest.push(head)?;
            }
            _ => {}
        }
    }
    Ok(false)
}
