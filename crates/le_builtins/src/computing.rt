ghost use Rattle.std.specs.Prelude.{◌≡◌, ◌<◌, length, slice_get, Some};
ghost use Rattle.le_terms.specs.Program.{predefined_arities};
ghost use Rattle.le_builtins.specs.Compute.{compute, GivesLeaf};

use crate::arithmetic::calculate;
use crate::comparing::{compare_dates, compare_numbers, different};
use crate::dates::{days_after, days_from_to, months_after};
use crate::lists::length_of;
use crate::sentences::{Sentence, sentence_of};
use le_terms::{Sym, Term};

/// What a predefined sentence answers for its arguments.
#[derive(Clone, Copy, Debug, PartialEq, Eq)]
pub enum Calc {
    /// Arguments 0 and 1 are to be unified.
    Same,
    /// Argument 0 is to be unified with this symbol, which is a term alone.
    Gives(Sym),
    /// It holds.
    Holds,
    /// It doesn't hold: a comparison is false, a divisor is 0, or an argument is of another kind.
    No,
    /// An argument that must be bound isn't.
    Unbound,
    /// The result is a number outside -10^18 to 10^18, or a date outside the years 0001 to 9999.
    Range,
}

/// What the predefined sentence of this predicate, which is below 18, answers for these arguments,
/// which are as many as its template has slots.
///
/// `Unbound` comes where an argument that must be bound isn't, whatever the others are; else `No`
/// where one isn't of the kind that its slot names, where a comparison is false, or where a divisor is
/// 0; else `Range` where the result is outside its range.
#[tactic(auto, unfolding(crate::specs::Compute::compute))]
pub fn compute(pred: u32, args: &[Term]) -> Calc
    requires computed { pred < 18 }
    requires arity { slice_get predefined_arities pred ≡ Some (length args.now) }
    ensures answer { result ≡ compute pred args.now }
    ensures in_range { GivesLeaf result }
{
    match sentence_of(pred) {
        Sentence::EqualTo => Calc::Same,
        Sentence::DifferentFrom => different(&args[0], &args[1]),
        Sentence::Numbers(comparison) => compare_numbers(comparison, &args[0], &args[1]),
        Sentence::Dates(comparison) => compare_dates(comparison, &args[0], &args[1]),
        Sentence::Arithmetic(operation) => calculate(operation, &args[1], &args[2]),
        Sentence::DaysAfter => days_after(&args[1], &args[2]),
        Sentence::MonthsAfter => months_after(&args[1], &args[2]),
        Sentence::DaysFromTo => days_from_to(&args[1], &args[2]),
        Sentence::LengthOf => length_of(&args[1]),
    }
}
