ghost use Rattle.std.specs.Prelude.{◌≡◌, IfOk, IsTrue};
ghost use Rattle.le_terms.specs.declared.program.Atom.{Atom as AnyAtom};
ghost use Rattle.le_terms.specs.declared.program.Form.TheVariants.{Calc as Computing};
ghost use Rattle.le_builtins.specs.Compute as specs;
ghost use Rattle.le_proofs.specs.Search.{computing};
ghost use Rattle.le_terms.specs.Tree.{IsLeaf};
ghost use Rattle.le_goals.specs.Shown.{literal_of, HasLiteral, IsWholeSymbol};
ghost use Rattle.le_cells.specs.Keeping.{goal_now, Becomes, IsComputable};
ghost use Rattle.le_cells.specs.Turns.{MayEnd, ByEquation};

use crate::goals::Outcome;
use le_builtins::{Calc, compute};
use le_goals::Goals;
use le_proofs::Next;
use le_terms::{Form, Sym};
use std::alloc::{AllocError, Global};

// The predicate of equations, whose terms needn't be read.
const EQUAL_TO: u32 = 0;

// What becomes of the computed literal at a place of a goal, of this line and predicate.
pub(crate) fn computed(
    alloc: Global,
    goals: &mut Goals<'_>,
    goal: usize,
    place: usize,
    line: u32,
    pred: u32,
) -> Result<Outcome, AllocError>
    requires literal { HasLiteral goals.old.now goal place }
    requires computable { IsComputable (literal_of (goal_now goals.old goal) place).form }
    ensures outcome { IfOk result (λ outcome. (atom : AnyAtom) → (literal_of (goal_now goals.old goal) place).form ≡ Computing atom → pred ≡ atom.pred → Becomes goals.old.now goals.new.now outcome (computing line atom)) }
    ensures ends { IfOk result MayEnd }
    ensures program { goals.new.program ≡ goals.old.program }
    ensures marks { goals.new.marks ≡ goals.old.marks }
{
    if pred == EQUAL_TO {
        let equal = goals.equate_arguments(alloc, goal, place)?;
        return Ok(by_equation(equal));
    }
    match calculated(alloc, goals, goal, place)? {
        Calc::Same => {
            let equal = goals.equate_arguments(alloc, goal, place)?;
            Ok(by_equation(equal))
        }
        Calc::Gives(sym) => {
            if !is_whole(sym) {
                return Err(AllocError);
            }
            let equal = goals.equate_result(alloc, goal, place, sym)?;
            Ok(by_equation(equal))
        }
        Calc::Holds => Ok(Outcome::GoesOn),
        Calc::No => Ok(Outcome::Fails),
        Calc::Unbound => Ok(Outcome::Ends(Next::Floundered(line))),
        Calc::Range => Ok(Outcome::Ends(Next::OutOfRange(line))),
    }
}

// What the predefined sentence at a place of a goal answers.
fn calculated(
    alloc: Global,
    goals: &Goals<'_>,
    goal: usize,
    place: usize,
) -> Result<Calc, AllocError>
    requires literal { HasLiteral goals.now.now goal place }
    requires computable { IsComputable (literal_of (goal_now goals.now goal) place).form }
    ensures answer { IfOk result (λ calc. (atom : AnyAtom) → (literal_of (goal_now goals.now goal) place).form ≡ Computing atom → calc ≡ specs.compute atom.pred atom.args) }
    ensures in_range { IfOk result specs.GivesLeaf }
{
    match goals.literal_at(alloc, goal, place)? {
        Some(literal) => match &literal.form {
            Form::Calc(atom) => Ok(compute(atom.pred, atom.args.as_slice())),
            _ => Ok(Calc::No),
        },
        None => Ok(Calc::No),
    }
}

// Whether a symbol that is a term alone is no variable. Those that are computed are numbers and dates.
fn is_whole(sym: Sym) -> bool
    ensures { IsTrue result → IsLeaf sym → IsWholeSymbol sym }
{
    !matches!(sym, Sym::Var(_))
}

// What becomes of an equation.
pub(crate) fn by_equation(equal: bool) -> Outcome
    ensures outcome { ByEquation equal result }
    ensures ends { MayEnd result }
{
    if equal {
        return Outcome::GoesOn;
    }
    Outcome::Fails
}
