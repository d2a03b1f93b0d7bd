ghost use Rattle.std.specs.Prelude.{◌≡◌, ◌<◌, ◌≤◌, length, map, string_bytes, Ok, IfOk, OnOk, IfSome, IsSome, IsErrOf};
ghost use Rattle.std.specs.Io.KnownBytes.{Appends, Keeps};
ghost use Rattle.le_base.specs.Outside.{Rose, AppendsPrefix};
ghost use Rattle.le_terms.specs.Program.{IsProgram};
ghost use Rattle.le_clauses.specs.Validity.{IsWhole};
ghost use Rattle.le_proofs.specs.declared.next.Next.TheVariants.{Answer};
ghost use Rattle.le_machine.specs.declared.phase.Phase.TheVariants.{Told};
ghost use Rattle.le_machine.specs.State.{last_leaf};
ghost use Rattle.le_bundle.specs.Head.{is_ended, ended};
ghost use Rattle.le_tool.specs.Report.{said_text, end_line, end_status, stopped_line, search_report, opening, opening_by, answers_report, document_report, asked_report, question_by};
ghost use Rattle.le_tool.specs.declared.asking.Detail.TheVariants.{Derivations};
ghost use Rattle.le_tool.specs.Admitted.{task_search, IsShown};
ghost use Rattle.le_tool.specs.Statuses.{is_answer, IsSearchStatus};

use crate::asking::{Asking, Detail, asking_of};
use crate::documents::{Reading, read_document};
use crate::jobs::Task;
use crate::report::{answer, ended, stopped};
use crate::writes::{Failure, say, say_bytes, say_refusal, say_report};
use le_base::{Sink, Source, Stop};
use le_bundle::head_lines;
use le_clauses::{Whole, select};
use le_machine::Machine;
use le_proofs::Next;
use le_terms::Program;
use std::alloc::Global;

/// Writes the lines of the machine's last answer, whose number this is.
fn say_answer<K: Sink>(
    alloc: Global,
    detail: Detail,
    whole: &Whole,
    program: &Program,
    number: u32,
    machine: &Machine,
    out: &mut K,
) -> Result<(), Failure>
    requires { machine.now.phase ≡ Told Answer }
    ensures done { OnOk result (Appends (K.written out.old) (K.written out.new) (said_text detail whole.now program.now number (last_leaf machine.now))) }
    ensures some { OnOk result (IsSome (last_leaf machine.now)) }
    ensures part { AppendsPrefix (K.written out.old) (K.written out.new) (said_text detail whole.now program.now number (last_leaf machine.now)) }
    ensures fault { IsErrOf result Failure.Write → Rose (K.faults out.old) (K.faults out.new) }
    ensures no_read { IsErrOf result Failure.Read → ⊥ }
    ensures count { K.faults out.old ≤ K.faults out.new }
{
    let text = answer(alloc, detail, whole, program, number, machine)?;
    say(out, text.as_str())
}

/// Whether a search found another answer.
fn is_answer(next: Next) -> bool
    ensures { result ≡ is_answer next }
{
    matches!(next, Next::Answer)
}

/// Writes the line of a search's end, and answers its status.
fn say_end<K: Sink>(alloc: Global, budget: u32, next: Next, out: &mut K) -> Result<u8, Failure>
    ensures done { IfOk result (λ status. Appends (K.written out.old) (K.written out.new) (end_line budget next) × (status ≡ end_status next)) }
    ensures part { AppendsPrefix (K.written out.old) (K.written out.new) (end_line budget next) }
    ensures fault { IsErrOf result Failure.Write → Rose (K.faults out.old) (K.faults out.new) }
    ensures no_read { IsErrOf result Failure.Read → ⊥ }
    ensures count { K.faults out.old ≤ K.faults out.new }
{
    let report = ended(alloc, budget, next)?;
    say_report(out, &report)
}

/// Writes that the limit on answers is reached.
fn say_stopped<K: Sink>(alloc: Global, most: u32, out: &mut K) -> Result<u8, Failure>
    ensures done { IfOk result (λ status. Appends (K.written out.old) (K.written out.new) (stopped_line most) × (status ≡ 0)) }
    ensures part { AppendsPrefix (K.written out.old) (K.written out.new) (stopped_line most) }
    ensures fault { IsErrOf result Failure.Write → Rose (K.faults out.old) (K.faults out.new) }
    ensures no_read { IsErrOf result Failure.Read → ⊥ }
    ensures count { K.faults out.old ≤ K.faults out.new }
{
    let text = stopped(alloc, most)?;
    say(out, text.as_str())?;
    Ok(0)
}

/// Searches a program, and writes each answer as it is found, up to `most`, and then how the search ends.
fn say_answers<K: Sink>(
    alloc: Global,
    detail: Detail,
    whole: &Whole,
    program: &Program,
    budget: u32,
    most: u32,
    out: &mut K,
) -> Result<u8, Failure>
    requires program { IsProgram program.now }
    requires some { 1 ≤ budget }
    requires few { budget ≤ 1000000 }
    ensures done { IfOk result (λ status. let r = search_report detail whole.now most budget program.now in Appends (K.written out.old) (K.written out.new) r.text × (status ≡ r.status)) }
    ensures part { AppendsPrefix (K.written out.old) (K.written out.new) (search_report detail whole.now most budget program.now).text }
    ensures fault { IsErrOf result Failure.Write → Rose (K.faults out.old) (K.faults out.new) }
    ensures no_read { IsErrOf result Failure.Read → ⊥ }
    ensures count { K.faults out.old ≤ K.faults out.new }
{
    let mut machine = Machine::start(alloc, program, budget)?;
    let mut given = 0;
    while given < most {
        let next = machine.next(alloc)?;
        if !is_answer(next) {
            return say_end(alloc, budget, next, out);
        }
        say_answer(alloc, detail, whole, program, given + 1, &machine, out)?;
        given += 1;
    }
    say_stopped(alloc, most, out)
}

/// Whether the last byte of a document is an LF.
pub fn is_ended(bytes: &[u8]) -> bool
    ensures { result ≡ is_ended bytes.now }
{
    !bytes.is_empty() && bytes[bytes.len() - 1] == b'\n'
}

/// Writes a document, with an LF where its last byte isn't one.
fn say_ended<K: Sink>(bytes: &[u8], out: &mut K) -> Result<(), Failure>
    ensures done { OnOk result (Appends (K.written out.old) (K.written out.new) (ended bytes.now)) }
    ensures part { AppendsPrefix (K.written out.old) (K.written out.new) (ended bytes.now) }
    ensures fault { IsErrOf result Failure.Write → Rose (K.faults out.old) (K.faults out.new) }
    ensures no_read { IsErrOf result Failure.Read → ⊥ }
    ensures count { K.faults out.old ≤ K.faults out.new }
{
    say_bytes(out, bytes)?;
    if is_ended(bytes) {
        return Ok(());
    }
    say(out, "\n")
}

/// Writes what stands before the derivations of a document's answers.
fn say_head<K: Sink>(
    alloc: Global,
    bytes: &[u8],
    asking: Asking<'_>,
    out: &mut K,
) -> Result<(), Failure>
    ensures done { OnOk result (Appends (K.written out.old) (K.written out.new) (opening_by Derivations bytes.now (question_by asking.entry))) }
    ensures part { AppendsPrefix (K.written out.old) (K.written out.new) (opening_by Derivations bytes.now (question_by asking.entry)) }
    ensures fault { IsErrOf result Failure.Write → Rose (K.faults out.old) (K.faults out.new) }
    ensures no_read { IsErrOf result Failure.Read → ⊥ }
    ensures count { K.faults out.old ≤ K.faults out.new }
{
    let lines = head_lines(
        alloc,
        asking.query,
        asking.scenario,
        asking.budget,
        asking.most,
    )?;
    say_ended(bytes, out)?;
    say(out, lines.as_str())
}

/// Writes what stands before the answers.
fn say_opening<K: Sink>(
    alloc: Global,
    bytes: &[u8],
    asking: Asking<'_>,
    out: &mut K,
) -> Result<(), Failure>
    ensures done { OnOk result (Appends (K.written out.old) (K.written out.new) (opening bytes.now (question_by asking.entry))) }
    ensures part { AppendsPrefix (K.written out.old) (K.written out.new) (opening bytes.now (question_by asking.entry)) }
    ensures fault { IsErrOf result Failure.Write → Rose (K.faults out.old) (K.faults out.new) }
    ensures no_read { IsErrOf result Failure.Read → ⊥ }
    ensures count { K.faults out.old ≤ K.faults out.new }
{
    match asking.detail {
        Detail::Values | Detail::Reasons => Ok(()),
        Detail::Derivations => say_head(alloc, bytes, asking, out),
    }
}

/// Writes the report of a program that a document of these bytes asks for.
fn say_search<K: Sink>(
    alloc: Global,
    bytes: &[u8],
    whole: &Whole,
    program: &Program,
    asking: Asking<'_>,
    out: &mut K,
) -> Result<u8, Failure>
    requires program { IsProgram program.now }
    requires some { 1 ≤ asking.budget }
    requires few { asking.budget ≤ 1000000 }
    ensures done { IfOk result (λ status. let r = answers_report bytes.now (question_by asking.entry) whole.now program.now in Appends (K.written out.old) (K.written out.new) r.text × (status ≡ r.status)) }
    ensures part { AppendsPrefix (K.written out.old) (K.written out.new) (answers_report bytes.now (question_by asking.entry) whole.now program.now).text }
    ensures fault { IsErrOf result Failure.Write → Rose (K.faults out.old) (K.faults out.new) }
    ensures no_read { IsErrOf result Failure.Read → ⊥ }
    ensures count { K.faults out.old ≤ K.faults out.new }
{
    say_opening(alloc, bytes, asking, out)?;
    say_answers(
        alloc,
        asking.detail,
        whole,
        program,
        asking.budget,
        asking.most,
        out,
    )
}

/// Writes the report of a question on a document that was read, or the document's refusal.
fn say_query<K: Sink>(
    alloc: Global,
    reading: &Reading,
    asking: Asking<'_>,
    out: &mut K,
) -> Result<u8, Failure>
    requires document { IfOk reading.now.document IsWhole }
    requires some { 1 ≤ asking.budget }
    requires few { asking.budget ≤ 1000000 }
    ensures done { IfOk result (λ status. let r = document_report reading.now.bytes.items (question_by asking.entry) reading.now.document in Appends (K.written out.old) (K.written out.new) r.text × (status ≡ r.status)) }
    ensures part { AppendsPrefix (K.written out.old) (K.written out.new) (document_report reading.now.bytes.items (question_by asking.entry) reading.now.document).text }
    ensures fault { IsErrOf result Failure.Write → Rose (K.faults out.old) (K.faults out.new) }
    ensures no_read { IsErrOf result Failure.Read → ⊥ }
    ensures count { K.faults out.old ≤ K.faults out.new }
{
    match &reading.document {
        Ok(whole) => say_program(alloc, &reading.bytes, whole, asking, out),
        Err(refusal) => say_refusal(alloc, refusal, out),
    }
}

/// Writes the report of a question on a document.
fn say_program<K: Sink>(
    alloc: Global,
    bytes: &[u8],
    whole: &Whole,
    asking: Asking<'_>,
    out: &mut K,
) -> Result<u8, Failure>
    requires whole { IsWhole whole.now }
    requires some { 1 ≤ asking.budget }
    requires few { asking.budget ≤ 1000000 }
    ensures done { IfOk result (λ status. let r = document_report bytes.now (question_by asking.entry) (Ok whole.now) in Appends (K.written out.old) (K.written out.new) r.text × (status ≡ r.status)) }
    ensures part { AppendsPrefix (K.written out.old) (K.written out.new) (document_report bytes.now (question_by asking.entry) (Ok whole.now)).text }
    ensures fault { IsErrOf result Failure.Write → Rose (K.faults out.old) (K.faults out.new) }
    ensures no_read { IsErrOf result Failure.Read → ⊥ }
    ensures count { K.faults out.old ≤ K.faults out.new }
{
    match select(alloc, whole, asking.scenario, asking.query) {
        Ok(program) => say_search(alloc, bytes, whole, &program, asking, out),
        Err(Stop::Refused(refusal)) => say_refusal(alloc, &refusal, out),
        Err(Stop::Memory) => Err(Failure::Memory),
    }
}

/// Writes the answers that a task asks for from the document that the source holds.
pub fn run_search<S: Source, K: Sink>(
    alloc: Global,
    words: &[String],
    detail: Detail,
    task: &Task,
    input: &mut S,
    out: &mut K,
) -> Result<u8, Failure>
    requires query { IfSome task.now.query (λ place. place < length words.now) }
    requires scenario { IfSome task.now.scenario (λ place. place < length words.now) }
    requires budget { (1 ≤ task.now.budget) × (task.now.budget ≤ 100000) }
    ensures done { IfOk result (λ status. IfSome (S.left input.old) (λ bytes.
        let r = asked_report detail (map string_bytes words.now) task.now bytes in
        Appends (K.written out.old) (K.written out.new) r.text × (status ≡ r.status))) }
    ensures part { IfSome (S.left input.old) (λ bytes.
        AppendsPrefix (K.written out.old) (K.written out.new) (asked_report detail (map string_bytes words.now) task.now bytes).text) }
    ensures answers { IfOk result (λ _. IfSome (S.left input.old) (λ bytes. IfSome (task_search detail (map string_bytes words.now) bytes task.now) IsShown)) }
    ensures statuses { IfOk result IsSearchStatus }
    ensures read_fault { IsErrOf result Failure.Read → Rose (S.faults input.old) (S.faults input.new) × Keeps (K.written out.old) (K.written out.new) }
    ensures write_fault { IsErrOf result Failure.Write → Rose (K.faults out.old) (K.faults out.new) }
{
    let asking = asking_of(words, detail, task);
    let reading = read_document(alloc, input)?;
    say_query(alloc, &reading, asking, out)
}
