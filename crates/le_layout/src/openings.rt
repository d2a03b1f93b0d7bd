/// The words that open a negation.
pub const NOT_THE_CASE: [&str; 6] = ["it", "is", "not", "the", "case", "that"];

/// The words that mark the second block of a `for all`.
pub const THE_CASE: [&str; 5] = ["it", "is", "the", "case", "that"];

/// The words that open a `for all`.
pub const ALL_CASES: [&str; 5] = ["for", "all", "cases", "in", "which"];
