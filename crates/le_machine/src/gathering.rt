ghost use Rattle.std.specs.Prelude.{◌≡◌, IfOk};
ghost use Rattle.le_gather.specs.Folds.{fold_of};
ghost use Rattle.le_proofs.specs.Search.{by_fold};
ghost use Rattle.le_machine.specs.Keeping.{outcome_of};
ghost use Rattle.le_machine.specs.Turns.{MayEnd};

use crate::equating::equate;
use crate::goals::Outcome;
use le_base::{FoldKind, GREATEST_NUMBER};
use le_gather::{FoldAnswer, fold};
use le_proofs::Next;
use le_terms::{Sym, Term};
use std::alloc::{AllocError, Global};

// How many values a gather can have: more don't fit in memory.
const MOST_VALUES: usize = 1_000_000_000_000_000_000;

// What becomes of a gather of this line whose search is done and found these values.
pub(crate) fn gathered(
    alloc: Global,
    line: u32,
    kind: FoldKind,
    target: &Term,
    values: &[Term],
) -> Result<Outcome, AllocError>
    ensures outcome { IfOk result (λ outcome. outcome_of outcome ≡ by_fold line target.now (fold_of kind values.now)) }
    ensures ends { IfOk result MayEnd }
{
    if values.len() > MOST_VALUES {
        return Err(AllocError);
    }
    match fold(kind, values) {
        FoldAnswer::Value(number) => {
            // It is in range, since the values are and `fold` answers `Range` for other sums.
            if number < -GREATEST_NUMBER || number > GREATEST_NUMBER {
                return Err(AllocError);
            }
            let value = Term::leaf(alloc, Sym::Num(number))?;
            equate(alloc, target, &value)
        }
        FoldAnswer::No => Ok(Outcome::Fails),
        FoldAnswer::Unbound => Ok(Outcome::Ends(Next::Floundered(line))),
        FoldAnswer::Range => Ok(Outcome::Ends(Next::OutOfRange(line))),
    }
}
