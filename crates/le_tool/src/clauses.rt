ghost use Rattle.std.specs.Prelude.{◌≡◌, ◌<◌, Ok, IfOk, IfSome, IsErrOf};
ghost use Rattle.std.specs.Io.KnownBytes.{Appends, Keeps};
ghost use Rattle.le_base.specs.Outside.{Rose, AppendsPrefix};
ghost use Rattle.le_tool.specs.Documents.{document_of};
ghost use Rattle.le_tool.specs.Report.{clauses_report};
ghost use Rattle.le_listing.specs.ClauseText.{clauses_text};
ghost use Rattle.le_tool.specs.Statuses.{IsClausesStatus};

use crate::documents::read_document;
use crate::writes::{Failure, say, say_refusal};
use le_base::{Refusal, Sink, Source};
use le_clauses::Whole;
use le_listing::clause_text;
use std::alloc::Global;

/// Writes the clauses of a document.
fn say_whole<K: Sink>(alloc: Global, whole: &Whole, out: &mut K) -> Result<u8, Failure>
    ensures done { IfOk result (λ status. Appends (K.written out.old) (K.written out.new) (clauses_text whole.now) × (status ≡ 0)) }
    ensures part { AppendsPrefix (K.written out.old) (K.written out.new) (clauses_text whole.now) }
    ensures fault { IsErrOf result Failure.Write → Rose (K.faults out.old) (K.faults out.new) }
    ensures no_read { IsErrOf result Failure.Read → ⊥ }
{
    let text = clause_text(alloc, whole)?;
    say(out, text.as_str())?;
    Ok(0)
}

/// Writes the clauses of a document, or its refusal.
fn say_clauses<K: Sink>(
    alloc: Global,
    document: &Result<Whole, Refusal>,
    out: &mut K,
) -> Result<u8, Failure>
    ensures done { IfOk result (λ status. let r = clauses_report document.now in Appends (K.written out.old) (K.written out.new) r.text × (status ≡ r.status)) }
    ensures part { AppendsPrefix (K.written out.old) (K.written out.new) (clauses_report document.now).text }
    ensures fault { IsErrOf result Failure.Write → Rose (K.faults out.old) (K.faults out.new) }
    ensures no_read { IsErrOf result Failure.Read → ⊥ }
{
    match document {
        Ok(whole) => say_whole(alloc, whole, out),
        Err(refusal) => say_refusal(alloc, refusal, out),
    }
}

/// Writes the clauses of the document that the source holds.
pub fn run_clauses<S: Source, K: Sink>(
    alloc: Global,
    input: &mut S,
    out: &mut K,
) -> Result<u8, Failure>
    ensures done { IfOk result (λ status. IfSome (S.left input.old) (λ bytes.
        let r = clauses_report (document_of bytes) in
        Appends (K.written out.old) (K.written out.new) r.text × (status ≡ r.status))) }
    ensures part { IfSome (S.left input.old) (λ bytes.
        AppendsPrefix (K.written out.old) (K.written out.new) (clauses_report (document_of bytes)).text) }
    ensures statuses { IfOk result IsClausesStatus }
    ensures read_fault { IsErrOf result Failure.Read → Rose (S.faults input.old) (S.faults input.new) × Keeps (K.written out.old) (K.written out.new) }
    ensures write_fault { IsErrOf result Failure.Write → Rose (K.faults out.old) (K.faults out.new) }
{
    let reading = read_document(alloc, input)?;
    say_clauses(alloc, &reading.document, out)
}
