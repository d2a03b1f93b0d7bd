/// Numbers are from -10^18 to 10^18.
pub const GREATEST_NUMBER: i64 = 1_000_000_000_000_000_000;

/// The first day is that of 0001-01-01, in days from 1970-01-01.
pub const FIRST_DAY: i64 = -719_162;

/// The last day is that of 9999-12-31, in days from 1970-01-01.
pub const LAST_DAY: i64 = 2_932_896;

/// A document has at most 2^20 bytes.
pub const MOST_DOCUMENT_BYTES: usize = 1_048_576;

/// A bundle, a name and the text of a sentence have at most 2^28 bytes.
pub const MOST_TEXT_BYTES: usize = 268_435_456;

/// The phrase of a slot, and the name in a phrase, has at most 12 words.
pub const MOST_PHRASE_WORDS: u32 = 12;

/// A template has at most 40 words outside its slots.
pub const MOST_TEMPLATE_WORDS: usize = 40;

/// A template has at most 8 slots.
pub const MOST_SLOTS: usize = 8;

/// A document has at most 1,000 templates of its own.
pub const MOST_TEMPLATES: usize = 1000;

/// A sentence has at most 200 tokens.
pub const MOST_SENTENCE_TOKENS: u32 = 200;

/// A rule or a query has at most 64 variables.
pub const MOST_VARIABLES: u32 = 64;

/// A document has at most 50,000 clauses, those of auxiliary predicates among them.
pub const MOST_CLAUSES: u32 = 50_000;
