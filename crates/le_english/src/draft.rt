ghost use Rattle.std.specs.Prelude.{◌≡◌, ℕ, List, ◌∷◌, ◌++◌, [], map, IfOk, OnOk, length, min};
ghost use Rattle.std.specs.BTreeSet.{contains};
ghost use Rattle.std.specs.Ordering.{nat_cmp};
ghost use Rattle.le_layout.specs.Spellings.{Spelling};
ghost use Rattle.le_layout.specs.Joined.{Item, joined};
ghost use Rattle.le_templates.specs.declared.part.Part.{Part};
ghost use Rattle.le_templates.specs.declared.part.Part.TheVariants.{Slot};
ghost use Rattle.le_terms.specs.Variables.{occurrences};
ghost use Rattle.le_english.specs.Phrases.{is_seen, phrase_of, phrases_of};
ghost use Rattle.le_english.specs.Sentences.{sentence, slot_lengths, with_phrase};
ghost use Rattle.le_english.specs.Lines.{capped, Completes, empty_line, with_items};

use crate::line::Line;
use crate::phrases::push_phrase;
use le_layout::Kind;
use le_templates::{Part, Templates};
use le_terms::{Names, Term};
use std::alloc::{AllocError, Global};
use std::collections::BTreeSet;

// A sentence under way: its line, the variables printed so far, and how many tokens the phrase of each slot
// so far has.
#[derive(Drop)]
pub(crate) struct Draft {
    pub(crate) line: Line,
    seen: BTreeSet<u32>,
    pub(crate) lengths: Vec<usize>,
}

// The sentence of a template with these arguments in its slots, marked or plain.
pub(crate) fn compose(
    alloc: Global,
    templates: &Templates,
    names: &Names,
    parts: &[Part],
    args: &[Term],
    marked: bool,
) -> Result<Draft, AllocError>
    ensures text { IfOk result (λ draft. draft.line.text ≡ joined (sentence marked parts.now (phrases_of templates.now names.now [] args.now))) }
    ensures lengths { IfOk result (λ draft. draft.lengths.items ≡ map capped (slot_lengths parts.now (phrases_of templates.now names.now [] args.now))) }
{
    let mut draft = Draft {
        line: Line::new(alloc),
        seen: BTreeSet::new(alloc),
        lengths: Vec::new(alloc),
    };
    for part in parts {
        push_part(alloc, templates, names, args, marked, &mut draft, part)?;
    }
    Ok(draft)
}

// Puts a template's part: a word, or the phrase of the next argument where there is one.
fn push_part(
    alloc: Global,
    templates: &Templates,
    names: &Names,
    args: &[Term],
    marked: bool,
    draft: &mut Draft,
    part: &Part,
) -> Result<(), AllocError>
    ensures { (parts : List Part) (whole counts : List ℕ) → Completes templates.now names.now args.now marked draft.old (part.now ∷ parts) whole counts → OnOk result (Completes templates.now names.now args.now marked draft.new parts whole counts) }
{
    match part {
        Part::Word(word) => draft.line.put(Kind::Word, word.as_str()),
        Part::Slot(_) => push_next(alloc, templates, names, args, marked, draft),
    }
}

// Puts the phrase of the next argument, where there is one.
fn push_next(
    alloc: Global,
    templates: &Templates,
    names: &Names,
    args: &[Term],
    marked: bool,
    draft: &mut Draft,
) -> Result<(), AllocError>
    ensures { (slot : List ℕ) (parts : List Part) (whole counts : List ℕ) → Completes templates.now names.now args.now marked draft.old (Slot slot ∷ parts) whole counts → OnOk result (Completes templates.now names.now args.now marked draft.new parts whole counts) }
{
    let next = draft.lengths.len();
    if args.len() <= next {
        return Ok(());
    }
    let count = push_slot(
        alloc,
        templates,
        names,
        marked,
        &mut draft.line,
        &mut draft.seen,
        &args[next],
    )?;
    draft.lengths.push(count)?;
    Ok(())
}

// Puts the phrase of a slot, between asterisks where the sentence is marked, and gives the number of its
// tokens.
fn push_slot(
    alloc: Global,
    templates: &Templates,
    names: &Names,
    marked: bool,
    line: &mut Line,
    seen: &mut BTreeSet<u32>,
    term: &Term,
) -> Result<usize, AllocError>
    ensures line { (ks : List ℕ) (rest : List Item) → ((k : ℕ) → contains nat_cmp seen.old k ≡ is_seen ks k) → OnOk result ((with_items line.new rest).text ≡ (with_items line.old (with_phrase marked (phrase_of templates.now names.now ks term.now) rest)).text) }
    ensures seen { (ks : List ℕ) → ((k : ℕ) → contains nat_cmp seen.old k ≡ is_seen ks k) → OnOk result ((k : ℕ) → contains nat_cmp seen.new k ≡ is_seen (ks ++ occurrences term.now) k) }
    ensures count { (ks : List ℕ) → ((k : ℕ) → contains nat_cmp seen.old k ≡ is_seen ks k) → IfOk result (λ count. count ≡ capped (length (phrase_of templates.now names.now ks term.now))) }
{
    if !marked {
        line.tokens = 0;
        push_phrase(alloc, line, templates, names, seen, term)?;
        return Ok(line.tokens);
    }
    line.open_slot()?;
    line.tokens = 0;
    push_phrase(alloc, line, templates, names, seen, term)?;
    let count = line.tokens;
    line.close_slot()?;
    Ok(count)
}
