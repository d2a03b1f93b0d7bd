ghost use Rattle.std.specs.Prelude.{◌≡◌, ◌++◌, ◌∷◌, ℕ, List, [], All, false, map, slice_index_or, true, IfOk, OnOk};
ghost use Rattle.std.specs.BTreeSet.{contains};
ghost use Rattle.std.specs.Ordering.{nat_cmp};
ghost use Rattle.le_layout.specs.Joined.{plain};
ghost use Rattle.le_terms.specs.Names.{HasNoRepeats};
ghost use Rattle.le_terms.specs.Variables.{occurrences};
ghost use Rattle.le_english.specs.Phrases.{name_phrase, is_seen, phrase_of, term_text, open_sign, close_sign};
ghost use Rattle.le_match.specs.Sayable.{IsTermToSay};
ghost use Rattle.le_english.specs.Atoms.{TermReadsBackAs};
ghost use Rattle.le_english.specs.Lines.{HasDay, at_item, at_tail, is_cell, last_tail, seen_after, seen_after_all, symbol_phrase, symbols_phrase, thing_phrase, with_tokens};

use crate::line::Line;
use crate::names::plain_tokens;
use itoa::Buffer;
use le_base::Text;
use le_layout::Kind;
use le_templates::Templates;
use le_terms::{Names, Sym, Term};
use le_values::write_day;
use std::alloc::{AllocError, Global};
use std::collections::BTreeSet;

/// The phrase of a term by itself. A constant's name is written as it is where that reads, as a phrase, as
/// the constant of the name wherever it stands, and else between quotation marks; a number that no name has
/// is the empty name. Numbers and dates have their usual form. A list is `[p, q]` or `[p, q | r]`. The
/// variable of number k is `a thing k` at its first place and `the thing k` later. Where the names hold what a
/// quoted text may hold, the phrase reads back as the term, its variables numbered by first occurrence. The
/// cost is in proportion to the text.
pub fn say_term(
    alloc: Global,
    templates: &Templates,
    names: &Names,
    term: &Term,
) -> Result<Text, AllocError>
    ensures text { IfOk result (λ text. text ≡ term_text templates.now names.now term.now) }
    ensures reads_back { HasNoRepeats names.now → IsTermToSay names.now term.now → IfOk result (λ text. TermReadsBackAs templates.now names.now term.now text) }
{
    let mut seen = BTreeSet::new(alloc);
    let mut line = Line::new(alloc);
    push_phrase(alloc, &mut line, templates, names, &mut seen, term)?;
    Ok(line.text)
}

// Puts the phrase of a term after which other phrases of the text may follow: these variables were printed
// before.
pub(crate) fn push_phrase(
    alloc: Global,
    line: &mut Line,
    templates: &Templates,
    names: &Names,
    seen: &mut BTreeSet<u32>,
    term: &Term,
) -> Result<(), AllocError>
    ensures line { (ks : List ℕ) → ((k : ℕ) → contains nat_cmp seen.old k ≡ is_seen ks k) → OnOk result (line.new ≡ with_tokens line.old (phrase_of templates.now names.now ks term.now)) }
    ensures seen { (ks : List ℕ) → ((k : ℕ) → contains nat_cmp seen.old k ≡ is_seen ks k) → OnOk result ((k : ℕ) → contains nat_cmp seen.new k ≡ is_seen (ks ++ occurrences term.now) k) }
{
    push_symbols(alloc, line, templates, names, seen, term.as_syms())
}

// Puts what symbols say, the first of which begins a term. After a cell an item begins, and after every other
// symbol the tail of the innermost list that is open.
fn push_symbols(
    alloc: Global,
    line: &mut Line,
    templates: &Templates,
    names: &Names,
    seen: &mut BTreeSet<u32>,
    symbols: &[Sym],
) -> Result<(), AllocError>
    requires { All HasDay symbols.now }
    ensures line { OnOk result (line.new ≡ with_tokens line.old (symbols_phrase templates.now names.now (contains nat_cmp seen.old) true symbols.now)) }
    ensures seen { OnOk result ((k : ℕ) → contains nat_cmp seen.new k ≡ seen_after_all (contains nat_cmp seen.old) symbols.now k) }
{
    let mut is_item = true;
    for symbol in symbols {
        push_symbol(alloc, line, templates, names, seen, is_item, *symbol)?;
        note_variable(seen, *symbol)?;
        is_item = is_cell(*symbol);
    }
    Ok(())
}

// Whether an item begins after a symbol.
fn is_cell(symbol: Sym) -> bool
    ensures { result ≡ is_cell symbol }
{
    matches!(symbol, Sym::Cons)
}

// Notes the variable that a symbol is, if it is one.
fn note_variable(seen: &mut BTreeSet<u32>, symbol: Sym) -> Result<(), AllocError>
    ensures { OnOk result ((k : ℕ) → contains nat_cmp seen.new k ≡ seen_after (contains nat_cmp seen.old) symbol k) }
{
    if let Sym::Var(variable) = symbol {
        seen.insert(variable)?;
    }
    Ok(())
}

// Puts what a symbol says, by whether an item begins with it.
fn push_symbol(
    alloc: Global,
    line: &mut Line,
    templates: &Templates,
    names: &Names,
    seen: &BTreeSet<u32>,
    is_item: bool,
    symbol: Sym,
) -> Result<(), AllocError>
    requires { HasDay symbol }
    ensures { OnOk result (line.new ≡ with_tokens line.old (symbol_phrase templates.now names.now (contains nat_cmp seen.now) is_item symbol)) }
{
    if is_item {
        push_item(alloc, line, templates, names, seen, symbol)
    } else {
        push_tail(alloc, line, templates, names, seen, symbol)
    }
}

// Puts what a symbol says where an item begins.
fn push_item(
    alloc: Global,
    line: &mut Line,
    templates: &Templates,
    names: &Names,
    seen: &BTreeSet<u32>,
    symbol: Sym,
) -> Result<(), AllocError>
    requires { HasDay symbol }
    ensures { OnOk result (line.new ≡ with_tokens line.old (at_item templates.now names.now (contains nat_cmp seen.now) symbol)) }
{
    match symbol {
        Sym::Name(number) => push_name(alloc, line, templates, name_at(names, number)),
        Sym::Num(number) => line.put(Kind::Word, Buffer::new().format(number)),
        Sym::Day(day) => line.put(Kind::Word, write_day(alloc, day)?.as_str()),
        Sym::Var(variable) => push_variable(line, seen.contains(&variable), variable),
        Sym::Nil => push_empty(line),
        Sym::Cons => line.put(Kind::Open, "["),
    }
}

// Puts what a symbol says where the tail of a list begins.
fn push_tail(
    alloc: Global,
    line: &mut Line,
    templates: &Templates,
    names: &Names,
    seen: &BTreeSet<u32>,
    symbol: Sym,
) -> Result<(), AllocError>
    requires { HasDay symbol }
    ensures { OnOk result (line.new ≡ with_tokens line.old (at_tail templates.now names.now (contains nat_cmp seen.now) symbol)) }
{
    match symbol {
        Sym::Cons => line.put(Kind::Comma, ","),
        Sym::Nil => line.put(Kind::Close, "]"),
        last => push_last(alloc, line, templates, names, seen, last),
    }
}

// Puts the last tail of a list that isn't the empty list.
fn push_last(
    alloc: Global,
    line: &mut Line,
    templates: &Templates,
    names: &Names,
    seen: &BTreeSet<u32>,
    symbol: Sym,
) -> Result<(), AllocError>
    requires { HasDay symbol }
    ensures { OnOk result (line.new ≡ with_tokens line.old (last_tail templates.now names.now (contains nat_cmp seen.now) symbol)) }
{
    line.put(Kind::Bar, "|")?;
    push_item(alloc, line, templates, names, seen, symbol)?;
    line.put(Kind::Close, "]")
}

// Puts the empty list.
fn push_empty(line: &mut Line) -> Result<(), AllocError>
    ensures { OnOk result (line.new ≡ with_tokens line.old (open_sign ∷ close_sign ∷ [])) }
{
    line.put(Kind::Open, "[")?;
    line.put(Kind::Close, "]")
}

// Puts the phrase of a variable.
fn push_variable(line: &mut Line, is_seen: bool, variable: u32) -> Result<(), AllocError>
    ensures { OnOk result (line.new ≡ with_tokens line.old (thing_phrase is_seen variable)) }
{
    line.put(Kind::Word, if is_seen { "the" } else { "a" })?;
    line.put(Kind::Word, "thing")?;
    line.put(Kind::Word, Buffer::new().format(variable))
}

// The name of a number, or the empty text where no name has it.
fn name_at(names: &Names, number: u32) -> &str
    ensures { result.now ≡ slice_index_or names.now number [] }
{
    if number < names.count() {
        names.name(number)
    } else {
        ""
    }
}

// Puts the phrase of a name.
fn push_name(
    alloc: Global,
    line: &mut Line,
    templates: &Templates,
    name: &str,
) -> Result<(), AllocError>
    ensures { OnOk result (line.new ≡ with_tokens line.old (name_phrase templates.now name.now)) }
{
    if let Some(count) = plain_tokens(alloc, templates, name)? {
        return line.put_words(name, count);
    }
    line.put(Kind::Quote, name)
}
