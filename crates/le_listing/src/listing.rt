ghost use Rattle.std.specs.Prelude.{◌≡◌, ◌++◌, codes, IfOk, OnOk};
ghost use Rattle.le_listing.specs.ClauseText.{clauses_text, pieces_text, piece_text, kind_text, name_text};

use crate::lines::{push_clauses, push_query};
use le_base::Text;
use le_clauses::{Piece, Whole};
use le_docs::SectionKind;
use std::alloc::{AllocError, Global};

/// The clauses of a document as a text: for each knowledge base, scenario and query, in their order, a line
/// with its kind and name, a line for the query itself, and a line for each clause, those of groups
/// included; and then a last line `end of clauses`. The line of a clause is the number of its line in the
/// document, its head and its literals. Names are quoted, and the variables of each line are `V1`, `V2` and
/// so on, in order of first occurrence.
#[tactic(auto, unfolding(crate::specs::ClauseText::clauses_text))]
pub fn clause_text(alloc: Global, whole: &Whole) -> Result<Text, AllocError>
    ensures { IfOk result (λ text. text ≡ clauses_text whole.now) }
{
    let mut text = Text::new(alloc);
    push_pieces(alloc, &mut text, whole, whole.pieces.as_slice())?;
    text.push_str("end of clauses\n")?;
    Ok(text)
}

// Appends the lines of some pieces.
fn push_pieces(
    alloc: Global,
    text: &mut Text,
    whole: &Whole,
    pieces: &[Piece],
) -> Result<(), AllocError>
    ensures { OnOk result (text.new ≡ text.old ++ pieces_text whole.now pieces.now) }
{
    for piece in pieces {
        push_piece(alloc, text, whole, piece)?;
    }
    Ok(())
}

// Appends the lines of a piece.
fn push_piece(
    alloc: Global,
    text: &mut Text,
    whole: &Whole,
    piece: &Piece,
) -> Result<(), AllocError>
    ensures { OnOk result (text.new ≡ text.old ++ piece_text whole.now piece.now) }
{
    text.push_str(kind_words(piece.kind))?;
    push_name(text, piece.name.as_str())?;
    text.push_str("\n")?;
    push_query(alloc, text, whole, piece)?;
    push_clauses(alloc, text, whole, piece.clauses.as_slice())
}

// What a piece is.
fn kind_words(kind: SectionKind) -> &'static str
    ensures { result.now ≡ kind_text kind }
{
    match kind {
        SectionKind::Knowledge => "knowledge base",
        SectionKind::Scenario => "scenario",
        SectionKind::Query => "query",
        SectionKind::Target => "target language",
        SectionKind::Templates => "templates",
    }
}

// Appends a name after one space, where there is one.
fn push_name(text: &mut Text, name: &str) -> Result<(), AllocError>
    ensures { OnOk result (text.new ≡ text.old ++ name_text name.now) }
{
    if name.is_empty() {
        return Ok(());
    }
    text.push_str(" ")?;
    text.push_str(name)
}
