ghost use Rattle.std.specs.Prelude.{◌≡◌, ℕ, ◌<◌, length, map, slice_get, IfOk};
ghost use Rattle.std.specs.List.{AllByRecursion};
ghost use Rattle.le_terms.specs.Program.{IsProgram, form_terms};
ghost use Rattle.le_terms.specs.Variables.{replaced};
ghost use Rattle.le_terms.specs.declared.program.Program.{Program as AnyProgram};
ghost use Rattle.le_store.specs.Shown.{IsThere, term_in};
ghost use Rattle.le_goals.specs.Frames.{cell_term, literals_in, form_value, value_in, answer_terms};
ghost use Rattle.le_goals.specs.Shown.{goal_at};
ghost use Rattle.le_goals.specs.State.{HasCells, AreAnswers, AreFrames};
ghost use Rattle.le_goals.specs.Parting.{AreAnyFrames};
ghost use Rattle.le_goals.specs.Unifying.{HasVariables};
ghost use Rattle.le_goals.specs.Ends.{HasAnswers};

use super::Goals;
use crate::finding::literals_in;
use crate::frames::{Answers, Frame, Source};
use crate::terms::shown_term;
use le_store::Store;
use le_terms::{Asked, Form, Program, Sym, Term};
use std::alloc::{AllocError, Global};

impl<'p> Goals<'p> {
    /// The terms of a goal's answer as they are now; none where there is no such goal.
    pub fn terms_at(&self, alloc: Global, goal: usize) -> Result<Vec<Term>, AllocError>
        ensures { IfOk result (λ terms. terms.items ≡ (goal_at self.now.now goal).terms) }
    {
        if goal >= self.frames.len() {
            return Ok(Vec::new(alloc));
        }
        let answers = last_answers(self.frames.as_slice(), goal);
        answer_terms(alloc, self.program, &self.store, answers)
    }
}

// The answer of a goal, which stands in its last frame.
fn last_answers(frames: &[Frame], goal: usize) -> Answers
    requires there { goal < length frames.now }
    requires frames { AreAnyFrames frames.now }
    ensures { (program : AnyProgram) (cells : ℕ) → AreFrames program cells 0 frames.now → HasAnswers program cells frames.now goal result }
{
    let mut at = goal;
    'frames: loop {
        match frames[at] {
            Frame::Empty(answers) => return answers,
            Frame::Before { rest, .. } => at = rest,
        }
    }
}

// The terms of an answer as the cells show them.
fn answer_terms(
    alloc: Global,
    program: &Program,
    store: &Store,
    answers: Answers,
) -> Result<Vec<Term>, AllocError>
    requires program { IsProgram program.now }
    requires answers { AreAnswers program.now (length store.now.now.terms) answers }
    ensures { IfOk result (λ terms. terms.items ≡ answer_terms program.now store.now.now answers) }
{
    match answers {
        Answers::Asked => asked_terms(alloc, store, program.asked.as_slice()),
        Answers::Nothing => Ok(Vec::new(alloc)),
        Answers::Value { source, base, at } => {
            let mut terms = Vec::with_capacity(alloc, 1)?;
            terms.push(value_term(alloc, program, store, source, base, at)?)?;
            Ok(terms)
        }
    }
}

// The terms of the variables that are asked for.
fn asked_terms(alloc: Global, store: &Store, asked: &[Asked]) -> Result<Vec<Term>, AllocError>
    requires { AllByRecursion (λ one. IsThere store.now one.var) asked.now }
    ensures { IfOk result (λ terms. terms.items ≡ map (λ one. term_in store.now.now one.var) asked.now) }
{
    let mut terms = Vec::with_capacity(alloc, asked.len())?;
    for one in asked {
        terms.push(store.term_at(alloc, one.var as usize)?)?;
    }
    Ok(terms)
}

// The value of the gather at a place of a body.
fn value_term(
    alloc: Global,
    program: &Program,
    store: &Store,
    source: Source,
    base: usize,
    at: usize,
) -> Result<Term, AllocError>
    requires program { IsProgram program.now }
    requires cells { HasCells program.now (length store.now.now.terms) source base }
    ensures { IfOk result (λ term. term ≡ replaced (cell_term store.now.now base) (value_in (slice_get (literals_in program.now source) at))) }
{
    match literals_in(program, source).get(at) {
        Some(literal) => shown_value(alloc, store, &literal.form, base),
        None => Term::leaf(alloc, Sym::Nil),
    }
}

// The value of a gather, and the empty list for another literal.
fn shown_value(alloc: Global, store: &Store, form: &Form, base: usize) -> Result<Term, AllocError>
    requires { HasVariables store.now base (form_terms form.now) }
    ensures { IfOk result (λ term. term ≡ replaced (cell_term store.now.now base) (form_value form.now)) }
{
    match form {
        Form::Pos(_) => Term::leaf(alloc, Sym::Nil),
        Form::Neg(_) => Term::leaf(alloc, Sym::Nil),
        Form::Calc(_) => Term::leaf(alloc, Sym::Nil),
        Form::Gather { value, .. } => shown_term(alloc, store, value, base),
    }
}
