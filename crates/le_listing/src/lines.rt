ghost use Rattle.std.specs.Prelude.{◌≡◌, ◌++◌, OnOk};
ghost use Rattle.le_listing.specs.ClauseText.{asked_vars, vars_text, clause_line, clause_lines, query_line, query_lines, first_line};

use crate::atoms::{push_atom, push_body};
use crate::terms::{push_number, push_variable};
use crate::variables::Variables;
use le_base::Text;
use le_clauses::{Piece, Whole};
use le_docs::SectionKind;
use le_terms::{Asked, Clause, Literal};
use std::alloc::{AllocError, Global};

/// Appends the line of each clause.
pub fn push_clauses(
    alloc: Global,
    text: &mut Text,
    whole: &Whole,
    clauses: &[Clause],
) -> Result<(), AllocError>
    ensures { OnOk result (text.new ≡ text.old ++ clause_lines whole.now clauses.now) }
{
    for clause in clauses {
        push_clause(alloc, text, whole, clause)?;
    }
    Ok(())
}

// Appends the line of a clause.
fn push_clause(
    alloc: Global,
    text: &mut Text,
    whole: &Whole,
    clause: &Clause,
) -> Result<(), AllocError>
    ensures { OnOk result (text.new ≡ text.old ++ clause_line whole.now clause.now) }
{
    let vars = Variables::of_clause(alloc, clause)?;
    push_number(text, clause.line)?;
    text.push_str(":")?;
    push_atom(alloc, text, whole, &vars, &clause.head)?;
    push_body(alloc, text, whole, &vars, clause.body.as_slice())?;
    text.push_str("\n")
}

/// Appends the line of a piece's query, where it is one.
pub fn push_query(
    alloc: Global,
    text: &mut Text,
    whole: &Whole,
    piece: &Piece,
) -> Result<(), AllocError>
    ensures { OnOk result (text.new ≡ text.old ++ query_lines whole.now piece.now.kind piece.now) }
{
    match piece.kind {
        SectionKind::Query => push_query_line(alloc, text, whole, piece),
        SectionKind::Target
        | SectionKind::Templates
        | SectionKind::Knowledge
        | SectionKind::Scenario => Ok(()),
    }
}

// Appends the line of a query.
fn push_query_line(
    alloc: Global,
    text: &mut Text,
    whole: &Whole,
    piece: &Piece,
) -> Result<(), AllocError>
    ensures { OnOk result (text.new ≡ text.old ++ query_line whole.now piece.now) }
{
    let asked = piece.asked.as_slice();
    let query = piece.query.as_slice();
    let vars = Variables::of_query(alloc, asked, query)?;
    push_number(text, first_line(query))?;
    text.push_str(": answer")?;
    push_asked(text, &vars, asked)?;
    push_body(alloc, text, whole, &vars, query)?;
    text.push_str("\n")
}

// The line of the first of some literals, or 0.
fn first_line(literals: &[Literal]) -> u32
    ensures { result ≡ first_line literals.now }
{
    if literals.is_empty() {
        0
    } else {
        literals[0].line
    }
}

// Appends each of the variables that a query asks for, between asterisks after one space.
fn push_asked(text: &mut Text, vars: &Variables, asked: &[Asked]) -> Result<(), AllocError>
    ensures { OnOk result (text.new ≡ text.old ++ vars_text vars.now (asked_vars asked.now)) }
{
    for one in asked {
        text.push_str(" *")?;
        push_variable(text, vars, one.var)?;
        text.push_str("*")?;
    }
    Ok(())
}
