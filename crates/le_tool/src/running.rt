ghost use Rattle.std.specs.Prelude.{◌≡◌, ◌≢◌, ◌<◌, ◌≤◌, ◌↔◌, length, map, string_bytes, Some, Ok, IfOk, IfSome, IsNone, IsErrOf};
ghost use Rattle.std.specs.Io.KnownBytes.{Appends, Keeps};
ghost use Rattle.le_base.specs.Outside.{Rose, AppendsPrefix};
ghost use Rattle.le_tool.specs.Job.{job_of};
ghost use Rattle.le_tool.specs.Report.{usage_text, task_report, report};
ghost use Rattle.le_tool.specs.Admitted.{search_for, search_asked, IsShown};
ghost use Rattle.le_tool.specs.Sentences.{SentencesReadBack};
ghost use Rattle.le_tool.specs.Checks.{checks_for, checks_asked, AreJudged};
ghost use Rattle.le_tool.specs.Statuses.{IsStatusOf, IsStatusFor};

use crate::answers::run_search;
use crate::asking::Detail;
use crate::checks::run_check;
use crate::clauses::run_clauses;
use crate::jobs::{Command, Task, job};
use crate::writes::Failure;
use le_base::{Sink, Source, WriteFault, put};
use std::alloc::Global;

/// The line that says how the program is called.
const USAGE: &str =
    "usage: le answer|explain|certify --query NAME [--scenario NAME] [--budget N] [--answers K] | clauses | check | trial N\n";

/// Runs a task on the document that the source holds, and writes its report.
fn run_task<S: Source, K: Sink>(
    alloc: Global,
    words: &[String],
    task: &Task,
    input: &mut S,
    out: &mut K,
) -> Result<u8, Failure>
    requires query { IfSome task.now.query (λ place. place < length words.now) }
    requires scenario { IfSome task.now.scenario (λ place. place < length words.now) }
    requires budget { (1 ≤ task.now.budget) × (task.now.budget ≤ 100000) }
    ensures done { IfOk result (λ status. IfSome (S.left input.old) (λ bytes.
        let r = task_report (map string_bytes words.now) task.now bytes in
        Appends (K.written out.old) (K.written out.new) r.text × (status ≡ r.status))) }
    ensures part { IfSome (S.left input.old) (λ bytes.
        AppendsPrefix (K.written out.old) (K.written out.new) (task_report (map string_bytes words.now) task.now bytes).text) }
    ensures answers { IfOk result (λ _. IfSome (S.left input.old) (λ bytes. IfSome (search_for (map string_bytes words.now) bytes (Some task.now)) IsShown)) }
    ensures accepted { IfOk result (λ _. IfSome (S.left input.old) (λ bytes. IfSome (checks_for bytes (Some task.now)) AreJudged)) }
    ensures statuses { IfOk result (IsStatusOf task.now.command) }
    ensures read_fault { IsErrOf result Failure.Read → Rose (S.faults input.old) (S.faults input.new) × Keeps (K.written out.old) (K.written out.new) }
    ensures write_fault { IsErrOf result Failure.Write → Rose (K.faults out.old) (K.faults out.new) }
{
    match task.command {
        Command::Answer => run_search(alloc, words, Detail::Values, task, input, out),
        Command::Explain => run_search(alloc, words, Detail::Reasons, task, input, out),
        Command::Certify => run_search(alloc, words, Detail::Derivations, task, input, out),
        Command::Clauses => run_clauses(alloc, input, out),
        Command::Check => run_check(alloc, input, out),
    }
}

/// Writes the line that says how the program is called.
fn say_usage<K: Sink>(out: &mut K) -> u8
    ensures done { result ≢ 6 → Appends (K.written out.old) (K.written out.new) usage_text × (result ≡ 2) }
    ensures part { AppendsPrefix (K.written out.old) (K.written out.new) usage_text }
    ensures fault { result ≡ 6 → Rose (K.faults out.old) (K.faults out.new) }
{
    match put(out, USAGE.as_bytes()) {
        Ok(()) => 2,
        Err(WriteFault) => 6,
    }
}

/// Writes the report of these words, without the program's name, on the document that the input holds, or for
/// `check` on the bundle, each answer or verdict as soon as it is found, and answers its status: 0 where the answers
/// are written and the search is done or as many were found as were asked for, where the clauses are written, or where
/// all derivations of the bundle are accepted; 1 where the document or a name is refused, or a bundle is too long; 2
/// where the command line isn't valid; 3 where the search floundered, 4 where its budget is spent and 9 where a number
/// was out of range; 8 where a line of the bundle doesn't fit or a derivation is refused. Further answers are 5 where a
/// read failed, after which nothing was written, and 6 where a write failed and 7 out of memory, after which a prefix
/// of the report was written. Where the command line isn't valid, nothing is read and no memory is taken.
pub fn run<S: Source, K: Sink>(alloc: Global, words: &[String], input: &mut S, out: &mut K) -> u8
    // What is written is the report of these words on all that the input held.
    ensures report { result ≢ 5 → result ≢ 6 → result ≢ 7 → IfSome (S.left input.old) (λ bytes.
        let r = report (map string_bytes words.now) bytes in
        Appends (K.written out.old) (K.written out.new) r.text × (result ≡ r.status)) }

    // The answers of the report are those of a search, each of which is admitted with its derivation; and where
    // that search is done, they are all that there are.
    ensures answers { result ≢ 5 → result ≢ 6 → result ≢ 7 → IfSome (S.left input.old) (λ bytes.
        IfSome (search_asked (map string_bytes words.now) bytes) IsShown) }

    // The values of these answers and the lines of their explanations read back, by the document's own templates, as
    // what they say.
    ensures sentences { IfSome (S.left input.old) (λ bytes. SentencesReadBack (map string_bytes words.now) bytes) }

    // Whatever the answer, it is a prefix of the report.
    ensures part { IfSome (S.left input.old) (λ bytes.
        AppendsPrefix (K.written out.old) (K.written out.new) (report (map string_bytes words.now) bytes).text) }

    // Where no read and no write failed in this call, the whole report is written, or memory ran out.
    ensures complete { (Rose (S.faults input.old) (S.faults input.new) → ⊥) → (Rose (K.faults out.old) (K.faults out.new) → ⊥) → result ≢ 7 →
        IfSome (S.left input.old) (λ bytes. let r = report (map string_bytes words.now) bytes in
        Appends (K.written out.old) (K.written out.new) r.text × (result ≡ r.status)) }

    // A derivation that is checked is accepted with values exactly where there is a refutation of the query, of some
    // rank, whose substitution gives these values and whose nodes are the derivation.
    ensures accepted { result ≢ 5 → result ≢ 6 → result ≢ 7 → IfSome (S.left input.old) (λ bytes.
        IfSome (checks_asked (map string_bytes words.now) bytes) AreJudged) }

    // Whether or not the source tells its bytes, only a status of the command is answered.
    ensures statuses { result ≢ 5 → result ≢ 6 → result ≢ 7 → IsStatusFor (job_of (map string_bytes words.now)) result }

    // A failed read is answered only where the source's count of faults rose, and then nothing was written.
    ensures read_fault { result ≡ 5 → Rose (S.faults input.old) (S.faults input.new) × Keeps (K.written out.old) (K.written out.new) }
    ensures write_fault { result ≡ 6 → Rose (K.faults out.old) (K.faults out.new) }

    // The usage line is written exactly where the command line isn't valid, with nothing read, and only a write can fail.
    ensures usage { (result ≡ 2) ↔ (IsNone (job_of (map string_bytes words.now)) × (result ≢ 6)) }
    ensures usage_text { result ≡ 2 → Appends (K.written out.old) (K.written out.new) usage_text }
    ensures usage_part { IsNone (job_of (map string_bytes words.now)) → AppendsPrefix (K.written out.old) (K.written out.new) usage_text }
    ensures usage_unread { IsNone (job_of (map string_bytes words.now)) → input.new ≡ input.old }
{
    match job(words) {
        None => say_usage(out),
        Some(task) => task_status(alloc, words, &task, input, out),
    }
}

/// Runs a task, and answers its status.
fn task_status<S: Source, K: Sink>(
    alloc: Global,
    words: &[String],
    task: &Task,
    input: &mut S,
    out: &mut K,
) -> u8
    requires query { IfSome task.now.query (λ place. place < length words.now) }
    requires scenario { IfSome task.now.scenario (λ place. place < length words.now) }
    requires budget { (1 ≤ task.now.budget) × (task.now.budget ≤ 100000) }
    ensures report { result ≢ 5 → result ≢ 6 → result ≢ 7 → IfSome (S.left input.old) (λ bytes.
        let r = task_report (map string_bytes words.now) task.now bytes in
        Appends (K.written out.old) (K.written out.new) r.text × (result ≡ r.status)) }
    ensures part { IfSome (S.left input.old) (λ bytes.
        AppendsPrefix (K.written out.old) (K.written out.new) (task_report (map string_bytes words.now) task.now bytes).text) }
    ensures answers { result ≢ 5 → result ≢ 6 → result ≢ 7 → IfSome (S.left input.old) (λ bytes. IfSome (search_for (map string_bytes words.now) bytes (Some task.now)) IsShown) }
    ensures accepted { result ≢ 5 → result ≢ 6 → result ≢ 7 → IfSome (S.left input.old) (λ bytes. IfSome (checks_for bytes (Some task.now)) AreJudged) }
    ensures statuses { result ≢ 5 → result ≢ 6 → result ≢ 7 → IsStatusOf task.now.command result }
    ensures read_fault { result ≡ 5 → Rose (S.faults input.old) (S.faults input.new) × Keeps (K.written out.old) (K.written out.new) }
    ensures write_fault { result ≡ 6 → Rose (K.faults out.old) (K.faults out.new) }
{
    match run_task(alloc, words, task, input, out) {
        Ok(status) => status,
        Err(failure) => failure.status(),
    }
}
