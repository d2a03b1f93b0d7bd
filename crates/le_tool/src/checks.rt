ghost use Rattle.std.specs.Prelude.{◌≡◌, ◌+◌, ◌^◌, ◌<◌, ◌≤◌, All, length, Ok, Err, IfOk, IfSome, IsErrOf};
ghost use Rattle.std.specs.Io.KnownBytes.{Appends, Keeps};
ghost use Rattle.le_base.specs.Outside.{Rose, AppendsPrefix};
ghost use Rattle.le_terms.specs.Program.{IsProgram};
ghost use Rattle.le_clauses.specs.Validity.{IsWhole};
ghost use Rattle.le_proofs.specs.Replay.{verdict_of};
ghost use Rattle.le_check.specs.Verdicts.{verdict_by};
ghost use Rattle.le_bundle.specs.Bundle.{bundle_of};
ghost use Rattle.le_bundle.specs.Parts.{bundle_by, IsShort};
ghost use Rattle.le_tool.specs.Checks.{part_length, part_document, verdict_text, is_accepted, all_accepted_line, certificates_report, parts_report, bundle_report, check_report, checks_in, bundle_checks, checks_of, AreJudged};
ghost use Rattle.le_tool.specs.Statuses.{IsCheckStatus};

use crate::answers::is_ended;
use crate::documents::{document_by, too_long};
use crate::report::{all_accepted, certificate, unfit};
use crate::writes::{Failure, say, say_refusal};
use le_base::{MOST_TEXT_BYTES, ReadStop, Sink, Source, Stop, read_all};
use le_bundle::{Parts, Unfit, open};
use le_check::{Verdict, check};
use le_clauses::{Whole, select};
use le_proofs::Derivation;
use le_subst::Steps;
use le_terms::Program;
use std::alloc::{AllocError, Global};
use std::marker::Brand;
use std::sync::ledger::{Blank, Ledger};

/// The verdict on a derivation of a program's query, whose steps are counted in a ledger of their own.
fn counted_verdict<L: Ledger>(
    alloc: Global,
    program: &Program,
    derivation: &Derivation,
    blank: Blank,
) -> Result<Verdict, AllocError>
    requires program { IsProgram program.now }
    requires few { length derivation.now.nodes ≤ 60000000 }
    requires name { blank.name ≡ L.name }
    requires parts { blank.parts ≡ L.parts }
    requires some { 0 < blank.parts }
    ensures { IfOk result (λ verdict. verdict_by verdict ≡ verdict_of program.now derivation.now.nodes) }
{
    let mut steps = Steps::<L>::begin(blank);
    check(alloc, program, derivation, &mut steps)
}

/// The verdict on a derivation of a program's query.
fn verdict(alloc: Global, program: &Program, derivation: &Derivation) -> Result<Verdict, AllocError>
    requires program { IsProgram program.now }
    requires few { length derivation.now.nodes ≤ 60000000 }
    ensures { IfOk result (λ verdict. verdict_by verdict ≡ verdict_of program.now derivation.now.nodes) }
{
    counted_verdict::<Brand>(alloc, program, derivation, Blank::new(1))
}

/// Whether a derivation is accepted.
fn is_accepted(verdict: &Verdict) -> bool
    ensures { result ≡ is_accepted (verdict_by verdict.now) }
{
    matches!(verdict, Verdict::Accepted(_))
}

/// Checks a derivation, writes the verdict under this number, and answers whether it is accepted.
fn say_verdict<K: Sink>(
    alloc: Global,
    whole: &Whole,
    program: &Program,
    number: usize,
    derivation: &Derivation,
    out: &mut K,
) -> Result<bool, Failure>
    requires program { IsProgram program.now }
    requires few { length derivation.now.nodes ≤ 60000000 }
    ensures done { IfOk result (λ accepted. Appends (K.written out.old) (K.written out.new) (verdict_text whole.now program.now number (verdict_of program.now derivation.now.nodes)) × (accepted ≡ is_accepted (verdict_of program.now derivation.now.nodes))) }
    ensures part { AppendsPrefix (K.written out.old) (K.written out.new) (verdict_text whole.now program.now number (verdict_of program.now derivation.now.nodes)) }
    ensures fault { IsErrOf result Failure.Write → Rose (K.faults out.old) (K.faults out.new) }
    ensures no_read { IsErrOf result Failure.Read → ⊥ }
    ensures count { K.faults out.old ≤ K.faults out.new }
{
    let verdict = verdict(alloc, program, derivation)?;
    let text = certificate(alloc, whole, program, number, &verdict)?;
    say(out, text.as_str())?;
    Ok(is_accepted(&verdict))
}

/// Writes how many derivations are accepted.
fn say_all_accepted<K: Sink>(alloc: Global, count: usize, out: &mut K) -> Result<u8, Failure>
    ensures done { IfOk result (λ status. Appends (K.written out.old) (K.written out.new) (all_accepted_line count) × (status ≡ 0)) }
    ensures part { AppendsPrefix (K.written out.old) (K.written out.new) (all_accepted_line count) }
    ensures fault { IsErrOf result Failure.Write → Rose (K.faults out.old) (K.faults out.new) }
    ensures no_read { IsErrOf result Failure.Read → ⊥ }
    ensures count { K.faults out.old ≤ K.faults out.new }
{
    let text = all_accepted(alloc, count)?;
    say(out, text.as_str())?;
    Ok(0)
}

/// Checks derivations one after another, and writes the verdict on each, up to the first that is refused.
fn say_verdicts<K: Sink>(
    alloc: Global,
    whole: &Whole,
    program: &Program,
    derivations: &[Derivation],
    out: &mut K,
) -> Result<u8, Failure>
    requires program { IsProgram program.now }
    requires short { All IsShort derivations.now }
    ensures done { IfOk result (λ status. let r = certificates_report whole.now program.now 0 derivations.now in Appends (K.written out.old) (K.written out.new) r.text × (status ≡ r.status)) }
    ensures part { AppendsPrefix (K.written out.old) (K.written out.new) (certificates_report whole.now program.now 0 derivations.now).text }
    ensures fault { IsErrOf result Failure.Write → Rose (K.faults out.old) (K.faults out.new) }
    ensures no_read { IsErrOf result Failure.Read → ⊥ }
    ensures count { K.faults out.old ≤ K.faults out.new }
{
    let mut at = 0;
    while at < derivations.len() {
        let accepted = say_verdict(alloc, whole, program, at + 1, &derivations[at], out)?;
        if !accepted {
            return Ok(8);
        }
        at += 1;
    }
    say_all_accepted(alloc, at, out)
}

/// Checks the derivations of a bundle with this document, and writes the report.
fn say_checked<K: Sink>(
    alloc: Global,
    whole: &Whole,
    parts: &Parts<'_>,
    out: &mut K,
) -> Result<u8, Failure>
    requires whole { IsWhole whole.now }
    requires short { All IsShort parts.now.derivations.items }
    ensures accepted { IfSome (checks_in (bundle_by parts.now) (Ok whole.now)) AreJudged }
    ensures done { IfOk result (λ status. let r = parts_report (bundle_by parts.now) (Ok whole.now) in Appends (K.written out.old) (K.written out.new) r.text × (status ≡ r.status)) }
    ensures part { AppendsPrefix (K.written out.old) (K.written out.new) (parts_report (bundle_by parts.now) (Ok whole.now)).text }
    ensures fault { IsErrOf result Failure.Write → Rose (K.faults out.old) (K.faults out.new) }
    ensures no_read { IsErrOf result Failure.Read → ⊥ }
    ensures count { K.faults out.old ≤ K.faults out.new }
{
    match select(alloc, whole, parts.scenario, parts.query) {
        Ok(program) => say_verdicts(alloc, whole, &program, &parts.derivations, out),
        Err(Stop::Refused(refusal)) => say_refusal(alloc, &refusal, out),
        Err(Stop::Memory) => Err(Failure::Memory),
    }
}

/// How many bytes the document part of a bundle has, without its last LF.
fn part_length(part: &[u8]) -> usize
    ensures exact { result ≡ part_length part.now }
    ensures within { length part.now ≤ result + 1 }
{
    if is_ended(part) {
        return part.len() - 1;
    }
    part.len()
}

/// Reads the document of a bundle, checks its derivations, and writes the report.
fn say_parts<K: Sink>(alloc: Global, parts: &Parts<'_>, out: &mut K) -> Result<u8, Failure>
    requires short { All IsShort parts.now.derivations.items }
    ensures accepted { IfOk result (λ _. IfSome (checks_in (bundle_by parts.now) (part_document parts.now.document.now)) AreJudged) }
    ensures done { IfOk result (λ status. let r = parts_report (bundle_by parts.now) (part_document parts.now.document.now) in Appends (K.written out.old) (K.written out.new) r.text × (status ≡ r.status)) }
    ensures part { AppendsPrefix (K.written out.old) (K.written out.new) (parts_report (bundle_by parts.now) (part_document parts.now.document.now)).text }
    ensures fault { IsErrOf result Failure.Write → Rose (K.faults out.old) (K.faults out.new) }
    ensures no_read { IsErrOf result Failure.Read → ⊥ }
    ensures count { K.faults out.old ≤ K.faults out.new }
{
    match document_by(alloc, part_length(parts.document), parts.document) {
        Ok(whole) => say_checked(alloc, &whole, parts, out),
        Err(Stop::Refused(refusal)) => say_refusal(alloc, &refusal, out),
        Err(Stop::Memory) => Err(Failure::Memory),
    }
}

/// Writes that a line of a bundle doesn't fit.
fn say_unfit<K: Sink>(alloc: Global, line: u32, out: &mut K) -> Result<u8, Failure>
    ensures done { IfOk result (λ status. let r = bundle_report (Err line) in Appends (K.written out.old) (K.written out.new) r.text × (status ≡ r.status)) }
    ensures part { AppendsPrefix (K.written out.old) (K.written out.new) (bundle_report (Err line)).text }
    ensures fault { IsErrOf result Failure.Write → Rose (K.faults out.old) (K.faults out.new) }
    ensures no_read { IsErrOf result Failure.Read → ⊥ }
    ensures count { K.faults out.old ≤ K.faults out.new }
{
    let text = unfit(alloc, line)?;
    say(out, text.as_str())?;
    Ok(8)
}

/// Checks a bundle, and writes the report.
fn say_bundle<K: Sink>(alloc: Global, bytes: &[u8], out: &mut K) -> Result<u8, Failure>
    requires { length bytes.now ≤ 2 ^ 28 }
    ensures accepted { IfOk result (λ _. IfSome (bundle_checks (bundle_of bytes.now)) AreJudged) }
    ensures done { IfOk result (λ status. let r = bundle_report (bundle_of bytes.now) in Appends (K.written out.old) (K.written out.new) r.text × (status ≡ r.status)) }
    ensures part { AppendsPrefix (K.written out.old) (K.written out.new) (bundle_report (bundle_of bytes.now)).text }
    ensures fault { IsErrOf result Failure.Write → Rose (K.faults out.old) (K.faults out.new) }
    ensures no_read { IsErrOf result Failure.Read → ⊥ }
    ensures count { K.faults out.old ≤ K.faults out.new }
{
    match open(alloc, bytes) {
        Ok(parts) => say_parts(alloc, &parts, out),
        Err(Unfit::Line(line)) => say_unfit(alloc, line, out),
        Err(Unfit::Memory) => Err(Failure::Memory),
    }
}

/// Checks bytes that aren't too many, and writes the report.
fn say_short<K: Sink>(alloc: Global, bytes: &[u8], out: &mut K) -> Result<u8, Failure>
    requires { length bytes.now ≤ 268435456 }
    ensures accepted { IfOk result (λ _. IfSome (checks_of bytes.now) AreJudged) }
    ensures done { IfOk result (λ status. let r = check_report bytes.now in Appends (K.written out.old) (K.written out.new) r.text × (status ≡ r.status)) }
    ensures part { AppendsPrefix (K.written out.old) (K.written out.new) (check_report bytes.now).text }
    ensures fault { IsErrOf result Failure.Write → Rose (K.faults out.old) (K.faults out.new) }
    ensures no_read { IsErrOf result Failure.Read → ⊥ }
    ensures count { K.faults out.old ≤ K.faults out.new }
{
    say_bundle(alloc, bytes, out)
}

/// Checks the bundle that the source holds, and writes the report.
pub fn run_check<S: Source, K: Sink>(
    alloc: Global,
    input: &mut S,
    out: &mut K,
) -> Result<u8, Failure>
    ensures done { IfOk result (λ status. IfSome (S.left input.old) (λ bytes.
        let r = check_report bytes in
        Appends (K.written out.old) (K.written out.new) r.text × (status ≡ r.status))) }
    ensures part { IfSome (S.left input.old) (λ bytes.
        AppendsPrefix (K.written out.old) (K.written out.new) (check_report bytes).text) }
    ensures accepted { IfOk result (λ _. IfSome (S.left input.old) (λ bytes. IfSome (checks_of bytes) AreJudged)) }
    ensures statuses { IfOk result IsCheckStatus }
    ensures read_fault { IsErrOf result Failure.Read → Rose (S.faults input.old) (S.faults input.new) × Keeps (K.written out.old) (K.written out.new) }
    ensures write_fault { IsErrOf result Failure.Write → Rose (K.faults out.old) (K.faults out.new) }
{
    match read_all(alloc, input, MOST_TEXT_BYTES) {
        Ok(bytes) => say_short(alloc, &bytes, out),
        Err(ReadStop::TooLong) => say_refusal(alloc, &too_long(alloc), out),
        Err(ReadStop::Fault) => Err(Failure::Read),
        Err(ReadStop::Memory) => Err(Failure::Memory),
    }
}
