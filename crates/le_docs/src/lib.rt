//! The sections of a document, and the sentences of each.
#![tactic(auto)]

mod cutting;
mod dividing;
mod doc;
mod faults;
mod headers;
mod laws;
#[cfg(test)]
mod tests;

pub use dividing::sections;
pub use doc::{Doc, Section, SectionKind, Sections, Spans};
pub use laws::{first_fault, governed_lines};
