ghost use Rattle.std.specs.Prelude.{◌≡◌, ◌||◌, [], ◌∷◌, false, IfOk, IfErr, IfSome, IfNone};
ghost use Rattle.le_base.specs.Ranges.{IsNumber, IsDay};
ghost use Rattle.le_terms.specs.Tree.{number, date};
ghost use Rattle.le_builtins.specs.Sentences.{is_variable, is_a_number, is_a_date, a_number, a_date};
ghost use Rattle.le_builtins.specs.Compute.{Saying, truth, answered, settled, GivesLeaf};

use crate::Calc;
use le_terms::{Sym, Term};

/// Whether a term is an unbound variable.
fn is_variable(term: &Term) -> bool
    ensures { result ≡ is_variable term.now }
{
    matches!(term.root(), Sym::Var(_))
}

/// Whether one of two terms is an unbound variable.
fn is_either_open(first: &Term, second: &Term) -> bool
    ensures { result ≡ (is_variable first.now || is_variable second.now) }
{
    is_variable(first) || is_variable(second)
}

/// The number that a term is, if it is one.
fn number_of(term: &Term) -> Option<i64>
    ensures some { IfSome result (λ n. (term.now ≡ number n) × IsNumber n) }
    ensures none { IfNone result (is_a_number term.now ≡ false) }
{
    match term.root() {
        Sym::Num(n) => Some(n),
        _ => None,
    }
}

/// The day number of the date that a term is, if it is one.
fn day_of(term: &Term) -> Option<i32>
    ensures some { IfSome result (λ d. (term.now ≡ date d) × IsDay d) }
    ensures none { IfNone result (is_a_date term.now ≡ false) }
{
    match term.root() {
        Sym::Day(day) => Some(day),
        _ => None,
    }
}

/// The two numbers that two terms are, or the answer where they aren't two numbers.
pub(crate) fn two_numbers(first: &Term, second: &Term) -> Result<(i64, i64), Calc>
    ensures first { IfOk result (λ p. (first.now ≡ number p.0) × IsNumber p.0) }
    ensures second { IfOk result (λ p. (second.now ≡ number p.1) × IsNumber p.1) }
    ensures refused { IfErr result (λ calc. (saying : Saying) → calc ≡ answered (a_number ∷ a_number ∷ []) (first.now ∷ second.now ∷ []) saying) }
    ensures in_range { IfErr result GivesLeaf }
{
    if is_either_open(first, second) {
        return Err(Calc::Unbound);
    }
    let Some(x) = number_of(first) else {
        return Err(Calc::No);
    };
    let Some(y) = number_of(second) else {
        return Err(Calc::No);
    };
    Ok((x, y))
}

/// The two dates that two terms are, or the answer where they aren't two dates.
pub(crate) fn two_dates(first: &Term, second: &Term) -> Result<(i32, i32), Calc>
    ensures first { IfOk result (λ p. (first.now ≡ date p.0) × IsDay p.0) }
    ensures second { IfOk result (λ p. (second.now ≡ date p.1) × IsDay p.1) }
    ensures refused { IfErr result (λ calc. (saying : Saying) → calc ≡ answered (a_date ∷ a_date ∷ []) (first.now ∷ second.now ∷ []) saying) }
    ensures in_range { IfErr result GivesLeaf }
{
    if is_either_open(first, second) {
        return Err(Calc::Unbound);
    }
    let Some(from) = day_of(first) else {
        return Err(Calc::No);
    };
    let Some(to) = day_of(second) else {
        return Err(Calc::No);
    };
    Ok((from, to))
}

/// The number and the date that two terms are, or the answer where they aren't.
pub(crate) fn number_and_date(first: &Term, second: &Term) -> Result<(i64, i32), Calc>
    ensures first { IfOk result (λ p. (first.now ≡ number p.0) × IsNumber p.0) }
    ensures second { IfOk result (λ p. (second.now ≡ date p.1) × IsDay p.1) }
    ensures refused { IfErr result (λ calc. (saying : Saying) → calc ≡ answered (a_number ∷ a_date ∷ []) (first.now ∷ second.now ∷ []) saying) }
    ensures in_range { IfErr result GivesLeaf }
{
    if is_either_open(first, second) {
        return Err(Calc::Unbound);
    }
    let Some(count) = number_of(first) else {
        return Err(Calc::No);
    };
    let Some(day) = day_of(second) else {
        return Err(Calc::No);
    };
    Ok((count, day))
}

/// Holds where this is true, else No.
pub(crate) fn holds(is_so: bool) -> Calc
    ensures answer { result ≡ settled (truth is_so) }
    ensures in_range { GivesLeaf result }
{
    if is_so { Calc::Holds } else { Calc::No }
}
