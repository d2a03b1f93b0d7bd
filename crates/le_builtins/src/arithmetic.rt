ghost use Rattle.std.specs.Prelude.{◌≡◌, ◌≢◌, [], ◌∷◌, pos};
ghost use Rattle.le_base.specs.Ranges.{IsNumber};
ghost use Rattle.le_builtins.specs.Numbers.{floor_quotient, IsFloor};
ghost use Rattle.le_builtins.specs.Sentences.{a_number};
ghost use Rattle.le_builtins.specs.Compute.{value_of, calculated, number_result, answered, settled, GivesLeaf};

use crate::Calc;
use crate::kinds::two_numbers;
use crate::sentences::Operation;
use le_base::GREATEST_NUMBER;
use le_terms::{Sym, Term};

/// What an operation on two numbers answers.
pub(crate) fn calculate(operation: Operation, first: &Term, second: &Term) -> Calc
    ensures answer { result ≡ answered (a_number ∷ a_number ∷ []) (first.now ∷ second.now ∷ []) (calculated operation (value_of first.now) (value_of second.now)) }
    ensures in_range { GivesLeaf result }
{
    match two_numbers(first, second) {
        Ok((x, y)) => calculated(operation, x, y),
        Err(calc) => calc,
    }
}

/// What an operation says of two numbers.
fn calculated(operation: Operation, x: i64, y: i64) -> Calc
    requires first { IsNumber x }
    requires second { IsNumber y }
    ensures answer { result ≡ settled (calculated operation x y) }
    ensures in_range { GivesLeaf result }
{
    match operation {
        Operation::Plus => number_result(x + y),
        Operation::Minus => number_result(x - y),
        Operation::Times => match x.checked_mul(y) {
            Some(product) => number_result(product),
            None => Calc::Range,
        },
        Operation::DividedBy if y == 0 => Calc::No,
        Operation::DividedBy => number_result(floor_quotient(x, y)),
    }
}

/// The floor of `x` over `y`: the greatest whole number that is at most their quotient.
fn floor_quotient(x: i64, y: i64) -> i64
    requires dividend { IsNumber x }
    requires divisor { IsNumber y }
    requires not_zero { y ≢ pos 0 }
    ensures value { result ≡ floor_quotient x y }
    ensures floor { IsFloor x y result }
{
    if y > 0 {
        x.div_euclid(y)
    } else {
        (-x).div_euclid(-y)
    }
}

/// A number as a result: Range where it is outside -10^18 to 10^18.
pub(crate) fn number_result(n: i64) -> Calc
    ensures answer { result ≡ settled (number_result n) }
    ensures in_range { GivesLeaf result }
{
    if -GREATEST_NUMBER <= n && n <= GREATEST_NUMBER {
        Calc::Gives(Sym::Num(n))
    } else {
        Calc::Range
    }
}
