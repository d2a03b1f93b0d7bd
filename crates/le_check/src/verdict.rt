use le_terms::Terms;

/// What a check says of a derivation.
#[derive(Drop)]
pub enum Verdict {
    /// It is admitted with these values of the variables that are asked for, whose variables are numbered from 1
    /// by first occurrence.
    Accepted(Terms),
    /// It isn't, as shows first at the node of this number, counted from 1.
    Refused {
        /// The number of the node.
        node: u32,
        /// The number of the fault.
        why: u8,
    },
}
