ghost use Rattle.std.specs.Prelude.{IfSome};
ghost use Rattle.le_base.specs.Ranges.{IsNumber};

use crate::*;
use le_terms::{Sym, Term};
use le_values::{day_of, number_of};
use std::alloc::Global;
use std::test::Fail;

const GREATEST: i64 = 1_000_000_000_000_000_000;

// The number that a word is, where `max` is 10^18.
fn number(word: &str) -> Option<i64>
    ensures { IfSome result IsNumber }
{
    match word {
        "max" => Some(GREATEST),
        "-max" => Some(-GREATEST),
        "max-1" => Some(GREATEST - 1),
        "1-max" => Some(1 - GREATEST),
        "2-max" => Some(2 - GREATEST),
        _ => number_of(word),
    }
}

// The term that a word is: a number, a date, `[]`, `?` for a variable, or else a name.
fn term(alloc: Global, word: &str) -> Result<Term, Fail> {
    if let Some(n) = number(word) {
        return Ok(Term::leaf(alloc, Sym::Num(n))?);
    }
    if let Some(day) = day_of(word) {
        return Ok(Term::leaf(alloc, Sym::Day(day))?);
    }
    let sym = match word {
        "[]" => Sym::Nil,
        "?" => Sym::Var(3),
        _ => Sym::Name(7),
    };
    Ok(Term::leaf(alloc, sym)?)
}

// The list of 1 and this item with this last tail.
fn list(alloc: Global, item: &str, tail: &str) -> Result<Term, Fail> {
    let rest = Term::cons(alloc, &term(alloc, item)?, &term(alloc, tail)?)?;
    Ok(Term::cons(alloc, &term(alloc, "1")?, &rest)?)
}

// The answer that a word is: a number, a date, `no`, `open`, or else Range.
fn answer(word: &str) -> Calc {
    if let Some(n) = number(word) {
        return Calc::Gives(Sym::Num(n));
    }
    if let Some(day) = day_of(word) {
        return Calc::Gives(Sym::Day(day));
    }
    match word {
        "no" => Calc::No,
        "open" => Calc::Unbound,
        _ => Calc::Range,
    }
}

#[test]
fn comparisons(rt: HostRuntime) -> Result<(), Fail> {
    let alloc = rt.alloc();
    let (yes, no, open) = (Calc::Holds, Calc::No, Calc::Unbound);
    // greater than, less than, at least, at most, and then before
    for (a, b, expected) in [
        ("2", "1", [yes, no, yes, no, no]),
        ("-2", "1", [no, yes, no, yes, no]),
        ("-2", "-2", [no, no, yes, yes, no]),
        ("max", "-max", [yes, no, yes, no, no]),
        ("2024-01-31", "2024-02-01", [no, no, no, no, yes]),
        ("?", "1", [open, open, open, open, open]),
        ("Ann", "?", [open, open, open, open, open]),
        ("Ann", "1", [no, no, no, no, no]),
        ("1", "2024-01-01", [no, no, no, no, no]),
    ] {
        let args = [term(alloc, a)?, term(alloc, b)?];
        let answers = [
            compute(2, &args),
            compute(3, &args),
            compute(4, &args),
            compute(5, &args),
            compute(6, &args),
        ];
        assert_eq!(rt; answers, expected);
    }
    Ok(())
}

#[test]
fn results(rt: HostRuntime) -> Result<(), Fail> {
    let alloc = rt.alloc();
    // plus, minus, times, divided by, and then days from .. to
    for (a, b, sum, difference, product, quotient, days) in [
        ("7", "2", "9", "5", "14", "3", "no"),
        ("-7", "2", "-5", "-9", "-14", "-4", "no"),
        ("7", "-2", "5", "9", "-14", "-4", "no"),
        ("-7", "-2", "-9", "-5", "14", "3", "no"),
        ("6", "-3", "3", "9", "-18", "-2", "no"),
        ("7", "0", "7", "7", "0", "no", "no"),
        ("1", "max-1", "max", "2-max", "max-1", "0", "no"),
        ("max", "1", "range", "max-1", "max", "max", "no"),
        ("-max", "-1", "range", "1-max", "max", "max", "no"),
        ("-max", "max", "0", "range", "range", "-1", "no"),
        ("2024-02-28", "2024-03-01", "no", "no", "no", "no", "2"),
        (
            "9999-12-31",
            "0001-01-01",
            "no",
            "no",
            "no",
            "no",
            "-3652058",
        ),
        ("?", "Ann", "open", "open", "open", "open", "open"),
        ("[]", "?", "open", "open", "open", "open", "open"),
    ] {
        let args = [term(alloc, "Ann")?, term(alloc, a)?, term(alloc, b)?];
        let answers = [
            compute(10, &args),
            compute(11, &args),
            compute(12, &args),
            compute(13, &args),
            compute(16, &args),
        ];
        let expected = [
            answer(sum),
            answer(difference),
            answer(product),
            answer(quotient),
            answer(days),
        ];
        assert_eq!(rt; answers, expected);
    }
    Ok(())
}

#[test]
fn dates_and_lists(rt: HostRuntime) -> Result<(), Fail> {
    let alloc = rt.alloc();
    let (yes, no, open) = (Calc::Holds, Calc::No, Calc::Unbound);
    // days and months after
    for (n, date, days, months) in [
        ("1", "2024-01-31", "2024-02-01", "2024-02-29"),
        ("-1", "2024-03-31", "2024-03-30", "2024-02-29"),
        ("1", "9999-12-31", "range", "range"),
        ("-1", "0001-01-01", "range", "range"),
        ("max", "2024-01-31", "range", "range"),
    ] {
        let args = [term(alloc, "?")?, term(alloc, n)?, term(alloc, date)?];
        let answers = [compute(14, &args), compute(15, &args)];
        assert_eq!(rt; answers, [answer(days), answer(months)]);
    }
    // is equal to, is different from, is the length of
    for (item, tail, expected) in [
        ("?", "[]", [Calc::Same, open, answer("2")]),
        ("1", "[]", [Calc::Same, no, answer("2")]),
        ("[]", "[]", [Calc::Same, yes, answer("2")]),
        ("[]", "?", [Calc::Same, open, open]),
        ("[]", "Ann", [Calc::Same, yes, no]),
    ] {
        let args = [list(alloc, "1", "[]")?, list(alloc, item, tail)?];
        let answers = [compute(0, &args), compute(1, &args), compute(17, &args)];
        assert_eq!(rt; answers, expected);
    }
    Ok(())
}
