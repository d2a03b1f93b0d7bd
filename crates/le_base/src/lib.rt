//! The ground of the other crates: owned text, refusals with their codes and places, and the outside
//! as a source of bytes and a sink for them.
#![tactic(auto)]

mod code;
mod limits;
mod list;
mod memory;
mod outside;
mod reading;
mod stop;
#[cfg(test)]
mod tests;
mod text;

pub use code::Code;
pub use limits::{
    FIRST_DAY, GREATEST_NUMBER, LAST_DAY, MOST_CLAUSES, MOST_DOCUMENT_BYTES, MOST_PHRASE_WORDS,
    MOST_SENTENCE_TOKENS, MOST_SLOTS, MOST_TEMPLATE_WORDS, MOST_TEMPLATES, MOST_TEXT_BYTES,
    MOST_VARIABLES,
};
pub use list::{Copied, List};
pub use memory::{MemSink, MemSource};
pub use outside::{Got, Sink, Source, Took};
pub use reading::{ReadStop, WriteFault, put, read_all};
pub use stop::{FoldKind, Refusal, Stop};
pub use text::Text;
