ghost use Rattle.std.specs.Prelude.{◌≡◌, ◌+◌, ◌<◌, ◌≤◌, length, Ok, IfOk, IfSome, IsErrOf};
ghost use Rattle.le_base.specs.declared.code.Code.TheVariants.{TooLong};
ghost use Rattle.le_base.specs.Outside.{Rose};
ghost use Rattle.le_base.specs.Stop.{refusal_at, Gives};
ghost use Rattle.le_clauses.specs.Validity.{IsWhole};
ghost use Rattle.le_tool.specs.Documents.{document_by, document_of};
ghost use Rattle.le_tool.specs.Readings.{IsReading};

use crate::writes::Failure;
use le_base::{Code, MOST_DOCUMENT_BYTES, ReadStop, Refusal, Source, Stop, read_all};
use le_clauses::{Whole, program};
use le_docs::sections;
use le_layout::scan;
use std::alloc::Global;

/// A document as it was read.
#[derive(Drop)]
pub struct Reading {
    /// Its bytes, where it is accepted.
    pub bytes: Vec<u8>,
    /// The document, or its refusal.
    pub document: Result<Whole, Refusal>,
}

/// The document that some bytes are, where so many of them count for the limit, or its refusal.
#[tactic(auto, unfolding(crate::specs::Documents::document_by))]
pub fn document_by(alloc: Global, count: usize, bytes: &[u8]) -> Result<Whole, Stop>
    requires { length bytes.now ≤ count + 1 }
    ensures exact { Gives (λ whole. whole) result (document_by count bytes.now) }
    ensures sound { IfOk result IsWhole }
{
    if count > MOST_DOCUMENT_BYTES {
        return Err(Stop::Refused(too_long(alloc)));
    }
    let layout = scan(alloc, bytes)?;
    let doc = sections(alloc, &layout)?;
    program(alloc, &layout, &doc)
}

/// The refusal of a document with too many bytes.
pub fn too_long(alloc: Global) -> Refusal
    ensures { result ≡ refusal_at TooLong 0 0 }
{
    Refusal::at(alloc, Code::TooLong, 0, 0)
}

/// The document that some bytes are, or its refusal, with the bytes.
fn read_bytes(alloc: Global, bytes: Vec<u8>) -> Result<Reading, Failure>
    ensures exact { IfOk result (λ reading. IsReading reading bytes.items) }
    ensures sound { IfOk result (λ reading. IfOk reading.document IsWhole) }
    ensures memory { (IsErrOf result Failure.Read → ⊥) × (IsErrOf result Failure.Write → ⊥) }
{
    match document_by(alloc, bytes.len(), &bytes) {
        Ok(whole) => Ok(Reading {
            bytes,
            document: Ok(whole),
        }),
        Err(Stop::Refused(refusal)) => Ok(Reading {
            bytes,
            document: Err(refusal),
        }),
        Err(Stop::Memory) => Err(Failure::Memory),
    }
}

/// The document that the source holds, or its refusal, with its bytes.
pub fn read_document<S: Source>(alloc: Global, input: &mut S) -> Result<Reading, Failure>
    ensures exact { IfOk result (λ reading. IfSome (S.left input.old) (IsReading reading)) }
    ensures sound { IfOk result (λ reading. IfOk reading.document IsWhole) }
    ensures fault { IsErrOf result Failure.Read → Rose (S.faults input.old) (S.faults input.new) }
    ensures no_write { IsErrOf result Failure.Write → ⊥ }
    ensures count { S.faults input.old ≤ S.faults input.new }
{
    match read_all(alloc, input, MOST_DOCUMENT_BYTES) {
        Ok(bytes) => read_bytes(alloc, bytes),
        Err(ReadStop::TooLong) => Ok(Reading {
            bytes: Vec::new(alloc),
            document: Err(too_long(alloc)),
        }),
        Err(ReadStop::Fault) => Err(Failure::Read),
        Err(ReadStop::Memory) => Err(Failure::Memory),
    }
}
