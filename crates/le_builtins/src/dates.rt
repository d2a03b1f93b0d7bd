ghost use Rattle.std.specs.Prelude.{◌≡◌, [], ◌∷◌, IfSome, ◌-ℤ◌};
ghost use Rattle.le_base.specs.Ranges.{IsDay};
ghost use Rattle.le_values.specs.Days.{days_later, months_later};
ghost use Rattle.le_builtins.specs.Sentences.{a_number, a_date};
ghost use Rattle.le_builtins.specs.Compute.{value_of, number_result, date_result, answered, settled, GivesLeaf};

use crate::Calc;
use crate::arithmetic::number_result;
use crate::kinds::{number_and_date, two_dates};
use le_terms::{Sym, Term};
use le_values::{add_days, add_months, days_between};

/// What "is .. days after" answers for its number and its last date.
pub(crate) fn days_after(count: &Term, day: &Term) -> Calc
    ensures answer { result ≡ answered (a_number ∷ a_date ∷ []) (count.now ∷ day.now ∷ []) (date_result (days_later (value_of day.now) (value_of count.now))) }
    ensures in_range { GivesLeaf result }
{
    match number_and_date(count, day) {
        Ok((n, start)) => date_result(add_days(start, n)),
        Err(calc) => calc,
    }
}

/// What "is .. months after" answers for its number and its last date.
pub(crate) fn months_after(count: &Term, day: &Term) -> Calc
    ensures answer { result ≡ answered (a_number ∷ a_date ∷ []) (count.now ∷ day.now ∷ []) (date_result (months_later (value_of day.now) (value_of count.now))) }
    ensures in_range { GivesLeaf result }
{
    match number_and_date(count, day) {
        Ok((n, start)) => date_result(add_months(start, n)),
        Err(calc) => calc,
    }
}

/// What "is the number of days from .. to .." answers for its two dates.
pub(crate) fn days_from_to(first: &Term, last: &Term) -> Calc
    ensures answer { result ≡ answered (a_date ∷ a_date ∷ []) (first.now ∷ last.now ∷ []) (number_result (value_of last.now -ℤ value_of first.now)) }
    ensures in_range { GivesLeaf result }
{
    match two_dates(first, last) {
        Ok((from, to)) => number_result(days_between(from, to)),
        Err(calc) => calc,
    }
}

/// A date as a result: Range where there is none.
fn date_result(day: Option<i32>) -> Calc
    requires { IfSome day IsDay }
    ensures answer { result ≡ settled (date_result day) }
    ensures in_range { GivesLeaf result }
{
    match day {
        Some(day) => Calc::Gives(Sym::Day(day)),
        None => Calc::Range,
    }
}
