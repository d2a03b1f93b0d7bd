ghost use Rattle.std.specs.Prelude.{◌≡◌};
ghost use Rattle.le_base.specs.Code.{code_number, code_name};

/// Why a document is refused. A refusal shows the code's number and name.
#[derive(Clone, Copy, Debug, PartialEq, Eq)]
pub enum Code {
    /// The document or the bundle has too many bytes.
    TooLong,
    /// The bytes are not UTF-8.
    NotUtf8,
    /// A character stands where none of its kind may stand.
    BadCharacter,
    /// A quoted text isn't closed on its line.
    OpenQuote,
    /// A conclusion or a condition has too many tokens.
    LongSentence,
    /// A line is taken by no header.
    UnknownHeader,
    /// A sentence isn't ended, or a query has no sentence.
    NoStop,
    /// A template hasn't the form of one.
    BadTemplate,
    /// Two templates have the same words around their slots.
    SameTemplate,
    /// A sentence has no reading.
    NoReading,
    /// A sentence has two or more best readings.
    Ambiguous,
    /// `the` and a name that nothing introduced.
    Dangling,
    /// A name is introduced again.
    Again,
    /// `which` outside a query.
    WhichHere,
    /// `and` and `or` stand in one block at one level.
    MixedConnectives,
    /// A condition's indentation or place fits no block.
    BadIndent,
    /// An opener of a negation or of `for all` stands where none may.
    NegationScope,
    /// A conclusion is read as a predefined sentence.
    PredefinedHead,
    /// Two scenarios or two queries have one name.
    SameName,
    /// Too many templates, variables or clauses.
    TooMany,
    /// The document has no scenario of the asked name.
    NoScenario,
    /// The document has no query of the asked name.
    NoQuery,
    /// A word of the form of a date is no date.
    BadDate,
    /// A word looks like a number and is none.
    BadNumber,
}

impl Code {
    /// The number that a refusal shows, from 1.
    pub fn number(self) -> u8
        ensures { result ≡ code_number self }
    {
        match self {
            Code::TooLong => 1,
            Code::NotUtf8 => 2,
            Code::BadCharacter => 3,
            Code::OpenQuote => 4,
            Code::LongSentence => 5,
            Code::UnknownHeader => 6,
            Code::NoStop => 7,
            Code::BadTemplate => 8,
            Code::SameTemplate => 9,
            Code::NoReading => 10,
            Code::Ambiguous => 11,
            Code::Dangling => 12,
            Code::Again => 13,
            Code::WhichHere => 14,
            Code::MixedConnectives => 15,
            Code::BadIndent => 16,
            Code::NegationScope => 17,
            Code::PredefinedHead => 18,
            Code::SameName => 19,
            Code::TooMany => 20,
            Code::NoScenario => 21,
            Code::NoQuery => 22,
            Code::BadDate => 23,
            Code::BadNumber => 24,
        }
    }

    /// The name that a refusal shows.
    pub fn name(self) -> &'static str
        ensures { result.now ≡ code_name self }
    {
        match self {
            Code::TooLong => "TooLong",
            Code::NotUtf8 => "NotUtf8",
            Code::BadCharacter => "BadCharacter",
            Code::OpenQuote => "OpenQuote",
            Code::LongSentence => "LongSentence",
            Code::UnknownHeader => "UnknownHeader",
            Code::NoStop => "NoStop",
            Code::BadTemplate => "BadTemplate",
            Code::SameTemplate => "SameTemplate",
            Code::NoReading => "NoReading",
            Code::Ambiguous => "Ambiguous",
            Code::Dangling => "Dangling",
            Code::Again => "Again",
            Code::WhichHere => "WhichHere",
            Code::MixedConnectives => "MixedConnectives",
            Code::BadIndent => "BadIndent",
            Code::NegationScope => "NegationScope",
            Code::PredefinedHead => "PredefinedHead",
            Code::SameName => "SameName",
            Code::TooMany => "TooMany",
            Code::NoScenario => "NoScenario",
            Code::NoQuery => "NoQuery",
            Code::BadDate => "BadDate",
            Code::BadNumber => "BadNumber",
        }
    }
}
