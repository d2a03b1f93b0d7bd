//! Takes the tokens of a layout, and gives the forms of the phrases that they are, the lengths of the phrases
//! that begin at each of them, and the symbols of a list's term. Keeps the names of the variables that are
//! introduced in a rule, a fact or a query. It knows nothing of templates, terms or sentences.
#![tactic(auto)]

mod laws;
mod lengths;
mod lists;
mod parts;
mod phrase;
mod scope;
#[cfg(test)]
mod tests;

pub use laws::{
    found_lists, lists_are_phrases, lists_found, numbers_and_dates, one_list, parts_are_one_term,
    parts_of_lists, phrases_in_a_row,
};
pub use lengths::{PhraseLengths, phrase_lengths};
pub use parts::{ListPart, list_parts};
pub use phrase::{PhraseForm, is_name, phrase_name, shape};
pub use scope::{Intro, Scope};
