use le_proofs::Derivation;

/// The parts of a bundle, which borrow its bytes.
#[derive(Drop)]
pub struct Parts<'a> {
    /// The bytes before the marker.
    pub document: &'a [u8],
    /// The name of the query.
    pub query: &'a str,
    /// The name of the scenario, where one was asked for.
    pub scenario: Option<&'a str>,
    /// The most selections of the search.
    pub budget: u32,
    /// The most answers that were asked for.
    pub most: u32,
    /// The derivations of the answers.
    pub derivations: Vec<Derivation>,
    /// The last line.
    pub ending: &'a [u8],
}

/// The names and limits of a search, as a bundle says them.
#[derive(Clone, Copy)]
pub struct Limits<'a> {
    /// The name of the query.
    pub query: &'a str,
    /// The name of the scenario, where one was asked for.
    pub scenario: Option<&'a str>,
    /// The most selections of the search.
    pub budget: u32,
    /// The most answers that were asked for.
    pub most: u32,
}
