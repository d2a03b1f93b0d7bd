//! Takes the atoms and the terms of a document, with its templates and names, and gives their English: sentences
//! that read back as their atoms, phrases, and the explanation of a derivation. It doesn't know how a program
//! comes about or is searched, nor reports.
#![tactic(auto)]

mod draft;
#[cfg(test)]
mod explain_tests;
mod explaining;
mod laws;
mod line;
mod lines;
mod names;
mod pending;
mod phrases;
mod proof_laws;
mod said;
mod sentences;
#[cfg(test)]
mod tests;
mod unshown;

pub use explaining::explain;
pub use laws::{atom_reads_back, declared_templates, one_reading, reads_back, term_reads_back};
pub use phrases::say_term;
pub use proof_laws::{answers_read_back, explains_admitted, explains_proofs};
pub use sentences::say;
