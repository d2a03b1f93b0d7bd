//! From the words of the command line and a document to the report: a document is read, its query searched, and
//! each answer shown with its values, its explanation or its derivation. It doesn't know how a document is
//! translated or searched, nor where the bytes come from and go to.
#![tactic(auto)]

mod answers;
mod asking;
mod checks;
mod clauses;
#[cfg(test)]
mod document_tests;
mod documents;
mod jobs;
#[cfg(test)]
mod language_tests;
mod laws;
mod report;
mod running;
#[cfg(test)]
mod search_tests;
#[cfg(test)]
mod tests;
mod writes;

pub use jobs::{Command, Task, job};
pub use laws::certified_accepted;
pub use running::run;
