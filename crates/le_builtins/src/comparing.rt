ghost use Rattle.std.specs.Prelude.{◌≡◌, [], ◌∷◌, not};
ghost use Rattle.le_builtins.specs.Numbers.{compares};
ghost use Rattle.le_builtins.specs.Sentences.{no_variable, a_number, a_date};
ghost use Rattle.le_builtins.specs.Compute.{is_same, value_of, truth, answered, GivesLeaf};

use crate::Calc;
use crate::kinds::{holds, two_dates, two_numbers};
use crate::sentences::Comparison;
use le_terms::{Term, is_ground};

/// What "is different from" answers.
pub(crate) fn different(first: &Term, second: &Term) -> Calc
    ensures answer { result ≡ answered (no_variable ∷ no_variable ∷ []) (first.now ∷ second.now ∷ []) (truth (not (is_same first.now second.now))) }
    ensures in_range { GivesLeaf result }
{
    if !is_ground(first) || !is_ground(second) {
        return Calc::Unbound;
    }
    holds(!first.equals(second))
}

/// What a comparison of two numbers answers.
pub(crate) fn compare_numbers(comparison: Comparison, first: &Term, second: &Term) -> Calc
    ensures answer { result ≡ answered (a_number ∷ a_number ∷ []) (first.now ∷ second.now ∷ []) (truth (compares comparison (value_of first.now) (value_of second.now))) }
    ensures in_range { GivesLeaf result }
{
    match two_numbers(first, second) {
        Ok((x, y)) => holds(compares(comparison, x, y)),
        Err(calc) => calc,
    }
}

/// What a comparison of two dates answers.
pub(crate) fn compare_dates(comparison: Comparison, first: &Term, second: &Term) -> Calc
    ensures answer { result ≡ answered (a_date ∷ a_date ∷ []) (first.now ∷ second.now ∷ []) (truth (compares comparison (value_of first.now) (value_of second.now))) }
    ensures in_range { GivesLeaf result }
{
    match two_dates(first, second) {
        Ok((x, y)) => holds(compares(comparison, i64::from(x), i64::from(y))),
        Err(calc) => calc,
    }
}

/// Whether two values compare so.
fn compares(comparison: Comparison, x: i64, y: i64) -> bool
    ensures { result ≡ compares comparison x y }
{
    match comparison {
        Comparison::GreaterThan => x > y,
        Comparison::LessThan => x < y,
        Comparison::AtLeast => x >= y,
        Comparison::AtMost => x <= y,
    }
}
