ghost use Rattle.std.specs.Prelude.{◌≡◌, ◌≢◌, ◌<◌, ℕ, [], Some, None, length, slice_get, IfOk, IfSome, IfNone};
ghost use Rattle.le_terms.specs.Tree.{Tree, IsTerm, tree_of};
ghost use Rattle.le_subst.specs.Unifiers.{IsMgu, Unifies};
ghost use Rattle.le_subst.specs.Solution.{solve_of};
ghost use Rattle.le_subst.specs.Symbols.{AreSides, equations_of};
ghost use Rattle.le_subst.specs.Steps.{StepMeans, BindMeans, choice_of, bound_after};

use crate::Subst;
use crate::substitution::closed;
use crate::symbols::{is_among, replace, same_len};
use le_terms::{Sym, Term, first_term_len};
use std::alloc::{AllocError, Global};

/// The solution of equations by unification with the occurs check, which is a most general unifier of
/// them. Of two variables the one with the higher number is bound to the lower. `None` comes exactly
/// where no substitution unifies the equations. Each binding takes time in
/// proportion to the symbols that are left.
pub fn solve(alloc: Global, equations: &[(Term, Term)]) -> Result<Option<Subst>, AllocError>
    ensures exact { IfOk result (λ answer. answer ≡ solve_of equations.now) }
    ensures mgu { IfOk result (λ answer. IfSome answer (λ subst. IsMgu subst equations.now)) }
    ensures none { IfOk result (λ answer. IfNone answer ((by : ℕ → Tree) → Unifies by equations.now → ⊥)) }
{
    let (left, right) = sides(alloc, equations)?;
    match triangle(alloc, left, right)? {
        None => Ok(None),
        Some(bindings) => Ok(Some(closed(alloc, bindings)?)),
    }
}

// The symbols of the left sides, and those of the right sides.
fn sides(alloc: Global, equations: &[(Term, Term)]) -> Result<(Vec<Sym>, Vec<Sym>), AllocError>
    ensures sides { IfOk result (λ both. AreSides both.0.items both.1.items) }
    ensures equations { IfOk result (λ both. equations_of both.0.items both.1.items ≡ equations.now) }
{
    let mut left = Vec::new(alloc);
    let mut right = Vec::new(alloc);
    for equation in equations {
        left.extend_from_slice(equation.0.as_syms())?;
        right.extend_from_slice(equation.1.as_syms())?;
    }
    Ok((left, right))
}

// The bindings that the equations make, each under those before it, or none where they contradict.
fn triangle(
    alloc: Global,
    mut left: Vec<Sym>,
    mut right: Vec<Sym>,
) -> Result<Option<Vec<(u32, Term)>>, AllocError>
    requires { AreSides left.items right.items }
    ensures found { IfOk result (λ answer. IfSome answer (λ bindings. bound_after bindings.items (Some []) ≡ solve_of (equations_of left.items right.items))) }
    ensures none { IfOk result (λ answer. IfNone answer (solve_of (equations_of left.items right.items) ≡ None)) }
{
    let mut bindings = Vec::new(alloc);
    loop {
        match next_step(alloc, &left, &right)? {
            Step::Solved => return Ok(Some(bindings)),
            Step::Failed => return Ok(None),
            Step::Bound {
                var,
                term,
                left: new_left,
                right: new_right,
            } => {
                bindings.push((var, term))?;
                left = new_left;
                right = new_right;
            }
        }
    }
}

// What some equations ask for next.
#[derive(Drop)]
enum Step {
    // Nothing.
    Solved,
    // What can't be.
    Failed,
    // That a variable is bound to a term, which leaves other equations.
    Bound {
        var: u32,
        term: Term,
        left: Vec<Sym>,
        right: Vec<Sym>,
    },
}

// The first binding of the equations, if there is one.
fn next_step(alloc: Global, left: &[Sym], right: &[Sym]) -> Result<Step, AllocError>
    requires { AreSides left.now right.now }
    ensures { IfOk result (λ step. StepMeans step (equations_of left.now right.now)) }
{
    let same = same_len(left, right);
    parted(alloc, &left[same..], &right[same..])
}

// The first binding of equations whose first symbols differ.
fn parted(alloc: Global, left: &[Sym], right: &[Sym]) -> Result<Step, AllocError>
    requires sides { AreSides left.now right.now }
    requires differ { 0 < length left.now → 0 < length right.now → slice_get left.now 0 ≢ slice_get right.now 0 }
    ensures { IfOk result (λ step. StepMeans step (equations_of left.now right.now)) }
{
    if left.is_empty() {
        return Ok(Step::Solved);
    }
    match choose(left[0], right[0]) {
        Choice::Left(var) => {
            let len = first_term_len(right).unwrap();
            bind(alloc, var, &right[..len], &left[1..], &right[len..])
        }
        Choice::Right(var) => {
            let len = first_term_len(left).unwrap();
            bind(alloc, var, &left[..len], &left[len..], &right[1..])
        }
        Choice::Neither => Ok(Step::Failed),
    }
}

// Which of two symbols is the variable that is bound.
#[derive(Clone, Copy)]
enum Choice {
    // The left one.
    Left(u32),
    // The right one.
    Right(u32),
    // Neither is a variable.
    Neither,
}

// Of two variables the one with the higher number is bound.
fn choose(left: Sym, right: Sym) -> Choice
    ensures { result ≡ choice_of left right }
{
    match left {
        Sym::Var(var) => match right {
            Sym::Var(other) => {
                if var < other {
                    Choice::Right(other)
                } else {
                    Choice::Left(var)
                }
            }
            _ => Choice::Left(var),
        },
        _ => match right {
            Sym::Var(other) => Choice::Right(other),
            _ => Choice::Neither,
        },
    }
}

// Binds a variable to a term, and replaces it in the equations that are left, unless it occurs in the term.
fn bind(
    alloc: Global,
    var: u32,
    term: &[Sym],
    left: &[Sym],
    right: &[Sym],
) -> Result<Step, AllocError>
    requires term { IsTerm term.now }
    requires sides { AreSides left.now right.now }
    ensures { IfOk result (λ step. BindMeans step var (tree_of term.now) (equations_of left.now right.now)) }
{
    if is_among(var, term) {
        return Ok(Step::Failed);
    }
    let new_left = replace(alloc, left, var, term)?;
    let new_right = replace(alloc, right, var, term)?;
    Ok(Step::Bound {
        var,
        term: Term::from_syms(Vec::from_slice(alloc, term)?),
        left: new_left,
        right: new_right,
    })
}
