ghost use Rattle.std.specs.Prelude.{◌≡◌, ◌++◌, find, IfOk, OnOk};
ghost use Rattle.std.specs.Option.{option_map, option_copied};
ghost use Rattle.le_base.specs.Stop.{Gives};
ghost use Rattle.le_terms.specs.Program.{IsProgram};
ghost use Rattle.le_clauses.specs.Selection.{is_named, knowledge, clauses_under, selected};
ghost use Rattle.le_clauses.specs.Validity.{IsWhole};

use crate::prelude::prelude;
use crate::{Piece, Whole};
use le_base::{Code, Copied, Refusal, Stop};
use le_docs::SectionKind;
use le_terms::{Clause, Clauses, Program};
use std::alloc::{AllocError, Global};

/// The program of the query with this name: the clauses of the knowledge bases in the order of the text,
/// then those of the scenario with the other name, where one is given, those of the query's groups, and
/// the prelude. Refused with `NoScenario` at line 0 column 0 exactly where no scenario has its name, and else with `NoQuery` there
/// exactly where no query has its name. The whole is that of a document.
pub fn select(
    alloc: Global,
    whole: &Whole,
    scenario: Option<&str>,
    query: &str,
) -> Result<Program, Stop>
    requires { IsWhole whole.now }
    ensures exact { Gives (λ p. p) result (selected whole.now (option_map (λ s. s.now) scenario.entry) query.now) }
    ensures sound { IfOk result IsProgram }
{
    let mut clauses = clauses(alloc, whole, scenario)?;
    let Some(piece) = named(whole.pieces.as_slice(), SectionKind::Query, query) else {
        return Err(Stop::Refused(Refusal::at(alloc, Code::NoQuery, 0, 0)));
    };
    add(alloc, piece.clauses.as_slice(), &mut clauses)?;
    let mut prelude = prelude(alloc)?;
    clauses.append(&mut prelude)?;
    Ok(Program {
        clauses: Clauses::from_vec(clauses),
        query: piece.query.copy(alloc)?,
        asked: piece.asked.copy(alloc)?,
        vars: piece.vars,
        users: whole.templates.users(),
        groups: whole.groups.copy(alloc)?,
        version: 1,
    })
}

// The clauses of the knowledge bases, and after them those of the scenario, where one is asked for.
fn clauses(alloc: Global, whole: &Whole, scenario: Option<&str>) -> Result<Vec<Clause>, Stop>
    ensures exact { Gives (λ clauses. clauses.items) result (clauses_under whole.now (option_map (λ s. s.now) scenario.entry)) }
{
    let pieces = whole.pieces.as_slice();
    let mut clauses = Vec::new(alloc);
    let Some(name) = scenario else {
        add_knowledge(alloc, pieces, &mut clauses)?;
        return Ok(clauses);
    };
    let Some(piece) = named(pieces, SectionKind::Scenario, name) else {
        return Err(Stop::Refused(Refusal::at(alloc, Code::NoScenario, 0, 0)));
    };
    add_knowledge(alloc, pieces, &mut clauses)?;
    add(alloc, piece.clauses.as_slice(), &mut clauses)?;
    Ok(clauses)
}

// The first piece of this kind and name.
fn named<'a>(pieces: &'a [Piece], kind: SectionKind, name: &str) -> Option<&'a Piece>
    ensures { option_copied result ≡ find (is_named kind name.now) pieces.now }
{
    pieces
        .iter()
        .find(|piece| piece.kind.is(kind) && piece.name.as_str() == name)
}

// Adds the clauses of the knowledge bases.
#[tactic(auto, unfolding(crate::specs::Selection::knowledge))]
fn add_knowledge(
    alloc: Global,
    pieces: &[Piece],
    clauses: &mut Vec<Clause>,
) -> Result<(), AllocError>
    ensures { OnOk result (clauses.new.items ≡ clauses.old.items ++ knowledge pieces.now) }
{
    for piece in pieces {
        if piece.kind.is(SectionKind::Knowledge) {
            add(alloc, piece.clauses.as_slice(), clauses)?;
        }
    }
    Ok(())
}

// Adds equal clauses.
fn add(alloc: Global, more: &[Clause], clauses: &mut Vec<Clause>) -> Result<(), AllocError>
    ensures { OnOk result (clauses.new.items ≡ clauses.old.items ++ more.now) }
{
    for clause in more {
        clauses.push(clause.copy(alloc)?)?;
    }
    Ok(())
}
