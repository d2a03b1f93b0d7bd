ghost use Rattle.std.specs.Prelude.{◌≡◌, IfOk};
ghost use Rattle.le_terms.specs.Tree.{Tree};
ghost use Rattle.le_terms.specs.declared.term.Sym.TheVariants.{Num};
ghost use Rattle.le_terms.specs.declared.program.Atom.{Atom as AnyAtom};
ghost use Rattle.le_terms.specs.declared.program.Form.TheVariants.{Gather as Gathering};
ghost use Rattle.le_gather.specs.Folds.{fold_of};
ghost use Rattle.le_proofs.specs.Search.{by_fold};
ghost use Rattle.le_goals.specs.Shown.{literal_of, HasLiteral};
ghost use Rattle.le_cells.specs.Keeping.{goal_now, Becomes};
ghost use Rattle.le_cells.specs.Turns.{MayEnd};

use crate::equating::by_equation;
use crate::goals::Outcome;
use le_base::{FoldKind, GREATEST_NUMBER};
use le_gather::{FoldAnswer, fold};
use le_goals::Goals;
use le_proofs::Next;
use le_terms::{Sym, Term};
use std::alloc::{AllocError, Global};

// How many values a gather can have: more don't fit in memory.
const MOST_VALUES: usize = 1_000_000_000_000_000_000;

// What becomes of the gather at a place of a goal, of this line and kind, whose search is done and found these values.
pub(crate) fn gathered(
    alloc: Global,
    goals: &mut Goals<'_>,
    goal: usize,
    place: usize,
    line: u32,
    kind: FoldKind,
    values: &[Term],
) -> Result<Outcome, AllocError>
    requires literal { HasLiteral goals.old.now goal place }
    ensures outcome { IfOk result (λ outcome. (target value : Tree) (atom : AnyAtom) → (literal_of (goal_now goals.old goal) place).form ≡ Gathering kind target value atom → Becomes goals.old.now goals.new.now outcome (by_fold line target (fold_of kind values.now))) }
    ensures ends { IfOk result MayEnd }
    ensures program { goals.new.program ≡ goals.old.program }
    ensures marks { goals.new.marks ≡ goals.old.marks }
{
    if values.len() > MOST_VALUES {
        return Err(AllocError);
    }
    match fold(kind, values) {
        FoldAnswer::Value(number) => {
            // It is in range, since the values are and `fold` answers `Range` for other sums.
            if number < -GREATEST_NUMBER || number > GREATEST_NUMBER {
                return Err(AllocError);
            }
            let total = number_symbol(number);
            let equal = goals.equate_result(alloc, goal, place, total)?;
            Ok(by_equation(equal))
        }
        FoldAnswer::No => Ok(Outcome::Fails),
        FoldAnswer::Unbound => Ok(Outcome::Ends(Next::Floundered(line))),
        FoldAnswer::Range => Ok(Outcome::Ends(Next::OutOfRange(line))),
    }
}

// The symbol of a number.
fn number_symbol(number: i64) -> Sym
    ensures { result ≡ Num number }
{
    Sym::Num(number)
}
