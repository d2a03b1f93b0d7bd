ghost use Rattle.std.specs.Prelude.{◌≡◌, map, IfOk};
ghost use Rattle.le_templates.specs.Table.{predefined as predefined_templates};
ghost use Rattle.le_templates.specs.Written.{part_written, row_written};

use crate::{Part, Parts, Template};
use le_base::Text;
use std::alloc::{AllocError, Global};

// A part as the table below spells it: a word, or a slot.
enum Written {
    W(&'static str),
    S(&'static str),
}

use Written::{S, W};

const TABLE: [&[Written]; 20] = [
    &[S("a thing"), W("is"), W("equal"), W("to"), S("a thing")],
    &[
        S("a thing"),
        W("is"),
        W("different"),
        W("from"),
        S("a thing"),
    ],
    &[
        S("a number"),
        W("is"),
        W("greater"),
        W("than"),
        S("a number"),
    ],
    &[S("a number"), W("is"), W("less"), W("than"), S("a number")],
    &[S("a number"), W("is"), W("at"), W("least"), S("a number")],
    &[S("a number"), W("is"), W("at"), W("most"), S("a number")],
    &[S("a date"), W("is"), W("before"), S("a date")],
    &[S("a date"), W("is"), W("after"), S("a date")],
    &[
        S("a date"),
        W("is"),
        W("on"),
        W("or"),
        W("before"),
        S("a date"),
    ],
    &[
        S("a date"),
        W("is"),
        W("on"),
        W("or"),
        W("after"),
        S("a date"),
    ],
    &[
        S("a number"),
        W("is"),
        S("a number"),
        W("plus"),
        S("a number"),
    ],
    &[
        S("a number"),
        W("is"),
        S("a number"),
        W("minus"),
        S("a number"),
    ],
    &[
        S("a number"),
        W("is"),
        S("a number"),
        W("times"),
        S("a number"),
    ],
    &[
        S("a number"),
        W("is"),
        S("a number"),
        W("divided"),
        W("by"),
        S("a number"),
    ],
    &[
        S("a date"),
        W("is"),
        S("a number"),
        W("days"),
        W("after"),
        S("a date"),
    ],
    &[
        S("a date"),
        W("is"),
        S("a number"),
        W("months"),
        W("after"),
        S("a date"),
    ],
    &[
        S("a number"),
        W("is"),
        W("the"),
        W("number"),
        W("of"),
        W("days"),
        W("from"),
        S("a date"),
        W("to"),
        S("a date"),
    ],
    &[
        S("a number"),
        W("is"),
        W("the"),
        W("length"),
        W("of"),
        S("a list"),
    ],
    &[S("a thing"), W("is"), W("in"), S("a list")],
    &[
        S("a list"),
        W("followed"),
        W("by"),
        S("a list"),
        W("is"),
        S("a list"),
    ],
];

/// The predefined templates.
#[tactic(auto, unfolding(crate::specs::Table::predefined))]
pub(crate) fn predefined(alloc: Global) -> Result<Vec<Template>, AllocError>
    ensures { IfOk result (λ templates. templates.items ≡ predefined_templates) }
{
    templates(alloc, &TABLE)
}

// The templates of some rows.
fn templates(alloc: Global, rows: &[&[Written]]) -> Result<Vec<Template>, AllocError>
    ensures { IfOk result (λ templates. templates.items ≡ map (λ row. row_written row.now) rows.now) }
{
    let mut templates = Vec::new(alloc);
    for row in rows {
        let parts = Parts::from_vec(parts(alloc, row)?);
        templates.push(Template { parts })?;
    }
    Ok(templates)
}

// The parts of a row.
fn parts(alloc: Global, row: &[Written]) -> Result<Vec<Part>, AllocError>
    ensures { IfOk result (λ parts. parts.items ≡ map part_written row.now) }
{
    let mut parts = Vec::new(alloc);
    for written in row {
        parts.push(part(alloc, written)?)?;
    }
    Ok(parts)
}

// A part.
fn part(alloc: Global, written: &Written) -> Result<Part, AllocError>
    ensures { IfOk result (λ part. part ≡ part_written written.now) }
{
    match written {
        W(word) => Ok(Part::Word(Text::of(alloc, word)?)),
        S(phrase) => Ok(Part::Slot(Text::of(alloc, phrase)?)),
    }
}
