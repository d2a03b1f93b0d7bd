ghost use Rattle.std.specs.Prelude.{◌≡◌, ◌<◌};
ghost use Rattle.le_builtins.specs.Sentences.{sentence_of};

/// Which of two values has to be the greater. Of two dates the later is the greater.
#[derive(Clone, Copy)]
pub(crate) enum Comparison {
    GreaterThan,
    LessThan,
    AtLeast,
    AtMost,
}

/// An operation on two numbers.
#[derive(Clone, Copy)]
pub(crate) enum Operation {
    Plus,
    Minus,
    Times,
    DividedBy,
}

/// A predefined sentence that is computed.
#[derive(Clone, Copy)]
pub(crate) enum Sentence {
    EqualTo,
    DifferentFrom,
    Numbers(Comparison),
    Dates(Comparison),
    Arithmetic(Operation),
    DaysAfter,
    MonthsAfter,
    DaysFromTo,
    LengthOf,
}

/// The sentence of a predefined predicate.
pub(crate) fn sentence_of(pred: u32) -> Sentence
    requires { pred < 18 }
    ensures { result ≡ sentence_of pred }
{
    match pred {
        0 => Sentence::EqualTo,
        1 => Sentence::DifferentFrom,
        2 => Sentence::Numbers(Comparison::GreaterThan),
        3 => Sentence::Numbers(Comparison::LessThan),
        4 => Sentence::Numbers(Comparison::AtLeast),
        5 => Sentence::Numbers(Comparison::AtMost),
        6 => Sentence::Dates(Comparison::LessThan),
        7 => Sentence::Dates(Comparison::GreaterThan),
        8 => Sentence::Dates(Comparison::AtMost),
        9 => Sentence::Dates(Comparison::AtLeast),
        10 => Sentence::Arithmetic(Operation::Plus),
        11 => Sentence::Arithmetic(Operation::Minus),
        12 => Sentence::Arithmetic(Operation::Times),
        13 => Sentence::Arithmetic(Operation::DividedBy),
        14 => Sentence::DaysAfter,
        15 => Sentence::MonthsAfter,
        16 => Sentence::DaysFromTo,
        _ => Sentence::LengthOf,
    }
}
