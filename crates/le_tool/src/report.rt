ghost use Rattle.std.specs.Prelude.{◌≡◌, ◌+◌, ◌<◌, ◌++◌, Some, IfOk, OnOk, decimal};
ghost use Rattle.std.specs.Option.{option_map};
ghost use Rattle.le_proofs.specs.declared.next.Next.TheVariants.{Answer};
ghost use Rattle.le_machine.specs.declared.phase.Phase.TheVariants.{Told};
ghost use Rattle.le_machine.specs.State.{last_leaf};
ghost use Rattle.le_tool.specs.declared.asking.Detail.TheVariants.{Values, Reasons, Derivations};
ghost use Rattle.le_tool.specs.Lines.{refused_report, readings_text, is_ambiguous, both_text, value_line, value_lines, answer_lines};
ghost use Rattle.le_proofs.specs.Replay.{accepted as accepted_with};
ghost use Rattle.le_check.specs.Verdicts.{verdict_by};
ghost use Rattle.le_tool.specs.Checks.{verdict_text, fault_text, refused_text, all_accepted_line, unfit_line};
ghost use Rattle.le_tool.specs.Report.{answer_body, answer_text, stopped_line, end_line, end_status};

use crate::asking::Detail;
use itoa::Buffer;
use le_base::{Code, Refusal, Text};
use le_bundle::{end_words, stopped_words};
use le_check::Verdict;
use le_clauses::Whole;
use le_english::{explain, say_term};
use le_machine::Machine;
use le_proofs::Next;
use le_prooftext::write;
use le_terms::{Asked, Program, Term};
use std::alloc::{AllocError, Global};

/// What is written, and the status that goes with it.
#[derive(Drop)]
pub struct Report {
    /// The text, whose lines end with LF.
    pub text: Text,
    /// The status.
    pub status: u8,
}

/// Appends a number in decimal digits.
pub fn push_number(text: &mut Text, number: u32) -> Result<(), AllocError>
    ensures { OnOk result (text.new ≡ text.old ++ decimal number) }
{
    let mut buffer = Buffer::new();
    text.push_str(buffer.format(number))
}

/// The report of a refused document.
pub fn refused(alloc: Global, refusal: &Refusal) -> Result<Report, AllocError>
    ensures { IfOk result (λ report. report ≡ refused_report refusal.now) }
{
    let mut text = Text::of(alloc, "refused ")?;
    push_number(&mut text, u32::from(refusal.code.number()))?;
    text.push_str(" ")?;
    text.push_str(refusal.code.name())?;
    text.push_str(" at line ")?;
    push_number(&mut text, refusal.line)?;
    text.push_str(" column ")?;
    push_number(&mut text, refusal.column)?;
    text.push_str("\n")?;
    push_readings(&mut text, refusal)?;
    Ok(Report { text, status: 1 })
}

/// Appends the lines that show the two readings of an ambiguous sentence.
fn push_readings(text: &mut Text, refusal: &Refusal) -> Result<(), AllocError>
    ensures { OnOk result (text.new ≡ text.old ++ readings_text refusal.now) }
{
    if is_ambiguous(refusal.code) {
        push_both(text, refusal.first.as_str(), refusal.second.as_str())?;
    }
    Ok(())
}

/// Whether a refusal of this cause shows two readings.
fn is_ambiguous(code: Code) -> bool
    ensures { result ≡ is_ambiguous code }
{
    matches!(code, Code::Ambiguous)
}

/// Appends the lines of two readings.
fn push_both(text: &mut Text, first: &str, second: &str) -> Result<(), AllocError>
    ensures { OnOk result (text.new ≡ text.old ++ both_text first.now second.now) }
{
    text.push_str("reading 1: ")?;
    text.push_str(first)?;
    text.push_str("\nreading 2: ")?;
    text.push_str(second)?;
    text.push_str("\n")?;
    Ok(())
}

/// The lines of the machine's last answer, whose number this is.
pub fn answer(
    alloc: Global,
    detail: Detail,
    whole: &Whole,
    program: &Program,
    number: u32,
    machine: &Machine,
) -> Result<Text, AllocError>
    requires { machine.now.phase ≡ Told Answer }
    ensures { IfOk result (λ text. option_map (answer_text detail whole.now program.now number) (last_leaf machine.now) ≡ Some text) }
{
    let mut text = numbered(alloc, "answer ", number, "\n")?;
    push_body(alloc, &mut text, detail, whole, program, machine)?;
    Ok(text)
}

/// Appends what the machine's last answer says after its number.
fn push_body(
    alloc: Global,
    text: &mut Text,
    detail: Detail,
    whole: &Whole,
    program: &Program,
    machine: &Machine,
) -> Result<(), AllocError>
    requires { machine.now.phase ≡ Told Answer }
    ensures { OnOk result (option_map (λ leaf. text.old ++ answer_body detail whole.now program.now leaf) (last_leaf machine.now) ≡ Some text.new) }
{
    match detail {
        Detail::Values => push_values(alloc, text, whole, program, machine),
        Detail::Reasons => push_reasons(alloc, text, whole, program, machine),
        Detail::Derivations => push_derivation(alloc, text, whole, program, machine),
    }
}

/// Appends the values of the machine's last answer.
fn push_values(
    alloc: Global,
    text: &mut Text,
    whole: &Whole,
    program: &Program,
    machine: &Machine,
) -> Result<(), AllocError>
    requires { machine.now.phase ≡ Told Answer }
    ensures { OnOk result (option_map (λ leaf. text.old ++ answer_body Values whole.now program.now leaf) (last_leaf machine.now) ≡ Some text.new) }
{
    let values = machine.values(alloc)?;
    push_answer_lines(alloc, text, whole, program.asked.as_slice(), &values)
}

/// Appends the values of the machine's last answer, and why it holds.
fn push_reasons(
    alloc: Global,
    text: &mut Text,
    whole: &Whole,
    program: &Program,
    machine: &Machine,
) -> Result<(), AllocError>
    requires { machine.now.phase ≡ Told Answer }
    ensures { OnOk result (option_map (λ leaf. text.old ++ answer_body Reasons whole.now program.now leaf) (last_leaf machine.now) ≡ Some text.new) }
{
    let values = machine.values(alloc)?;
    let derivation = machine.derivation(alloc)?;
    push_answer_lines(alloc, text, whole, program.asked.as_slice(), &values)?;
    let lines = explain(alloc, &whole.templates, &whole.names, program, &derivation)?;
    text.push_str("because\n")?;
    text.push_str(lines.as_str())
}

/// Appends the text of the derivation of the machine's last answer.
fn push_derivation(
    alloc: Global,
    text: &mut Text,
    whole: &Whole,
    program: &Program,
    machine: &Machine,
) -> Result<(), AllocError>
    requires { machine.now.phase ≡ Told Answer }
    ensures { OnOk result (option_map (λ leaf. text.old ++ answer_body Derivations whole.now program.now leaf) (last_leaf machine.now) ≡ Some text.new) }
{
    let derivation = machine.derivation(alloc)?;
    let lines = write(alloc, &derivation)?;
    text.push_str(lines.as_str())
}

/// Appends what an answer says.
fn push_answer_lines(
    alloc: Global,
    text: &mut Text,
    whole: &Whole,
    asked: &[Asked],
    values: &[Term],
) -> Result<(), AllocError>
    ensures { OnOk result (text.new ≡ text.old ++ answer_lines whole.now asked.now values.now) }
{
    if asked.is_empty() {
        return text.push_str("yes\n");
    }
    push_value_lines(alloc, text, whole, asked, values)
}

/// Appends the lines of the values of an answer.
fn push_value_lines(
    alloc: Global,
    text: &mut Text,
    whole: &Whole,
    asked: &[Asked],
    values: &[Term],
) -> Result<(), AllocError>
    ensures { OnOk result (text.new ≡ text.old ++ value_lines whole.now asked.now values.now) }
{
    let mut at = 0;
    while at < asked.len() && at < values.len() {
        push_value_line(alloc, text, whole, &asked[at], &values[at])?;
        at += 1;
    }
    Ok(())
}

/// Appends the line of a value.
fn push_value_line(
    alloc: Global,
    text: &mut Text,
    whole: &Whole,
    asked: &Asked,
    value: &Term,
) -> Result<(), AllocError>
    ensures { OnOk result (text.new ≡ text.old ++ value_line whole.now asked.now value.now) }
{
    text.push_str(asked.name.as_str())?;
    text.push_str(": ")?;
    let phrase = say_term(alloc, &whole.templates, &whole.names, value)?;
    text.push_str(phrase.as_str())?;
    text.push_str("\n")?;
    Ok(())
}

/// The last line where the limit on answers is reached.
pub fn stopped(alloc: Global, most: u32) -> Result<Text, AllocError>
    ensures { IfOk result (λ text. text ≡ stopped_line most) }
{
    let mut text = stopped_words(alloc, most)?;
    text.push_str("\n")?;
    Ok(text)
}

/// A number between two texts.
fn numbered(alloc: Global, front: &str, number: u32, back: &str) -> Result<Text, AllocError>
    ensures { IfOk result (λ text. text ≡ front.now ++ (decimal number ++ back.now)) }
{
    let mut text = Text::of(alloc, front)?;
    push_number(&mut text, number)?;
    text.push_str(back)?;
    Ok(text)
}

/// The line of a search's end, and the status that goes with it.
pub fn ended(alloc: Global, budget: u32, next: Next) -> Result<Report, AllocError>
    ensures text { IfOk result (λ report. report.text ≡ end_line budget next) }
    ensures status { IfOk result (λ report. report.status ≡ end_status next) }
{
    let mut text = end_words(alloc, budget, next)?;
    text.push_str("\n")?;
    Ok(Report {
        text,
        status: end_status(next),
    })
}

// The status that goes with a search's end.
fn end_status(next: Next) -> u8
    ensures { result ≡ end_status next }
{
    match next {
        Next::Done | Next::Answer => 0,
        Next::Floundered(_) => 3,
        Next::OutOfRange(_) => 9,
        Next::Spent => 4,
    }
}

/// Appends a count in decimal digits.
fn push_count(text: &mut Text, count: usize) -> Result<(), AllocError>
    ensures { OnOk result (text.new ≡ text.old ++ decimal count) }
{
    let mut buffer = Buffer::new();
    text.push_str(buffer.format(count as u64))
}

/// What is said of the derivation of this number, on which this is the verdict.
pub fn certificate(
    alloc: Global,
    whole: &Whole,
    program: &Program,
    number: usize,
    verdict: &Verdict,
) -> Result<Text, AllocError>
    ensures { IfOk result (λ text. text ≡ verdict_text whole.now program.now number (verdict_by verdict.now)) }
{
    match verdict {
        Verdict::Accepted(values) => accepted(alloc, whole, program, number, values.as_slice()),
        Verdict::Refused { node, why } => refused_at(alloc, number, *node, *why),
    }
}

/// A count between two texts.
fn counted(alloc: Global, front: &str, count: usize, back: &str) -> Result<Text, AllocError>
    ensures { IfOk result (λ text. text ≡ front.now ++ (decimal count ++ back.now)) }
{
    let mut text = Text::of(alloc, front)?;
    push_count(&mut text, count)?;
    text.push_str(back)?;
    Ok(text)
}

/// That the derivation of this number is accepted, with its values.
fn accepted(
    alloc: Global,
    whole: &Whole,
    program: &Program,
    number: usize,
    values: &[Term],
) -> Result<Text, AllocError>
    ensures { IfOk result (λ text. text ≡ verdict_text whole.now program.now number (accepted_with values.now)) }
{
    let mut text = counted(alloc, "certificate ", number, " accepted\n")?;
    push_answer_lines(alloc, &mut text, whole, program.asked.as_slice(), values)?;
    Ok(text)
}

/// That the derivation of this number is refused at this node, and why.
fn refused_at(alloc: Global, number: usize, node: u32, why: u8) -> Result<Text, AllocError>
    ensures { IfOk result (λ text. text ≡ refused_text number node why) }
{
    let mut text = counted(alloc, "certificate ", number, " refused at node ")?;
    push_fault(&mut text, node, why)?;
    Ok(text)
}

/// Appends the node where a derivation is refused, and why.
fn push_fault(text: &mut Text, node: u32, why: u8) -> Result<(), AllocError>
    ensures { OnOk result (text.new ≡ text.old ++ fault_text node why) }
{
    push_number(text, node)?;
    text.push_str(": why ")?;
    push_number(text, u32::from(why))?;
    text.push_str("\n")
}

/// How many derivations are accepted.
pub fn all_accepted(alloc: Global, count: usize) -> Result<Text, AllocError>
    ensures { IfOk result (λ text. text ≡ all_accepted_line count) }
{
    counted(alloc, "", count, " certificates accepted\n")
}

/// That a line of a bundle doesn't fit.
pub fn unfit(alloc: Global, line: u32) -> Result<Text, AllocError>
    ensures { IfOk result (λ text. text ≡ unfit_line line) }
{
    numbered(alloc, "bundle refused at line ", line, "\n")
}
