ghost use Rattle.std.specs.Prelude.{◌≡◌, IfOk, OnOk};
ghost use Rattle.le_english.specs.Explanations.{is_template, sentence_of};
ghost use Rattle.le_english.specs.Said.{IsKnown};

use crate::sentences::say;
use le_base::{Copied, Text};
use le_templates::Templates;
use le_terms::{Atom, Names};
use std::alloc::{AllocError, Global};

/// An atom with its sentence.
#[derive(Debug, Drop)]
pub struct Said {
    /// The atom.
    pub atom: Atom,
    /// Its sentence.
    pub text: Text,
}

/// The sentence of an atom, or nothing where it is of no template. The last atom that was said is said again
/// without looking at its readings.
#[tactic(auto, unfolding(crate::specs::Explanations::sentence_of))]
pub fn sentence(
    alloc: Global,
    templates: &Templates,
    names: &Names,
    atom: &Atom,
    last: &mut Option<Said>,
) -> Result<Text, AllocError>
    requires known { IsKnown templates.now names.now last.old }
    ensures text { IfOk result (λ text. text ≡ sentence_of templates.now names.now atom.now) }
    ensures known { OnOk result (IsKnown templates.now names.now last.new) }
{
    if !is_template(templates, atom.pred) {
        return Ok(Text::new(alloc));
    }
    if let Some(said) = last.as_ref() {
        if said.atom.equals(atom) {
            return Text::of(alloc, said.text.as_str());
        }
    }
    let text = say(alloc, templates, names, atom)?;
    *last = Some(Said {
        atom: atom.copy(alloc)?,
        text: Text::of(alloc, text.as_str())?,
    });
    Ok(text)
}

/// Whether a predicate is that of a template.
pub fn is_template(templates: &Templates, pred: u32) -> bool
    ensures { result ≡ is_template templates.now pred }
{
    pred < 20 + templates.users()
}
