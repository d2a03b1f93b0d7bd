ghost use Rattle.std.specs.Prelude.{◌≡◌, ◌^◌, ◌≤◌, length, pos, ◌+ℤ◌, IfOk, IfErr, OnErr};
ghost use Rattle.le_base.specs.Ranges.{IsNumber};
ghost use Rattle.le_terms.specs.Tree.{number};
ghost use Rattle.le_gather.specs.Folds.{fold_of, greatest_of, with_numbers, in_range, greater, if_no_number};

use le_base::{FoldKind, GREATEST_NUMBER};
use le_terms::{Sym, Term};

/// What is made of the values at all cases of a gather.
#[derive(Clone, Copy, Debug, PartialEq, Eq)]
pub enum FoldAnswer {
    /// This number, from -10^18 to 10^18.
    Value(i64),
    /// Nothing: a value isn't a number, or there is no greatest of no values.
    No,
    /// Nothing yet: a value that must be a number is an unbound variable.
    Unbound,
    /// The sum is outside -10^18 to 10^18.
    Range,
}

/// What is made of these values: their number, their sum or the greatest of them.
///
/// The number counts all values, of any kind. For a sum and a greatest value the first value that isn't
/// a number decides: an unbound variable answers `Unbound`, another term `No`. The sum of none is 0, and
/// the greatest of none answers `No`. `Range` comes exactly for a sum whose values are all numbers, where
/// it is outside -10^18 to 10^18.
pub fn fold(kind: FoldKind, values: &[Term]) -> FoldAnswer
    requires { length values.now ≤ 10 ^ 18 }
    ensures { result ≡ fold_of kind values.now }
{
    match kind {
        FoldKind::Sum => sum_of(values),
        FoldKind::Number => FoldAnswer::Value(values.len() as i64),
        FoldKind::Greatest => match values {
            [] => FoldAnswer::No,
            [first, rest @ ..] => match number_of(first) {
                Ok(n) => greatest_of(n, rest),
                Err(answer) => answer,
            },
        },
    }
}

/// The number that a value is, or what a fold answers where it is none.
fn number_of(value: &Term) -> Result<i64, FoldAnswer>
    ensures number { IfOk result (λ n. (value.now ≡ number n) × IsNumber n) }
    ensures other { IfErr result (λ answer. if_no_number value.now ≡ Some answer) }
{
    match value.root() {
        Sym::Num(n) => Ok(n),
        Sym::Var(_) => Err(FoldAnswer::Unbound),
        _ => Err(FoldAnswer::No),
    }
}

/// The sum of the values.
fn sum_of(values: &[Term]) -> FoldAnswer
    requires { length values.now ≤ 10 ^ 18 }
    ensures { result ≡ with_numbers (λ x y. x +ℤ y) in_range (pos 0) values.now }
{
    let mut sum: i128 = 0;
    for value in values {
        match number_of(value) {
            Ok(n) => sum += i128::from(n),
            Err(answer) => return answer,
        }
    }
    in_range(sum)
}

/// The greatest of a number and the values.
fn greatest_of(first: i64, values: &[Term]) -> FoldAnswer
    ensures { result ≡ with_numbers greater FoldAnswer.Value first values.now }
{
    let mut greatest = first;
    for value in values {
        match number_of(value) {
            Ok(n) if greatest < n => greatest = n,
            Ok(_) => {}
            Err(answer) => return answer,
        }
    }
    FoldAnswer::Value(greatest)
}

/// A sum as an answer.
fn in_range(sum: i128) -> FoldAnswer
    ensures { result ≡ in_range sum }
{
    let greatest = i128::from(GREATEST_NUMBER);
    if -greatest <= sum && sum <= greatest {
        FoldAnswer::Value(sum as i64)
    } else {
        FoldAnswer::Range
    }
}
