ghost use Rattle.std.specs.Prelude.{◌≡◌, ◌++◌, [], All, decimal, slice_index_or, true, OnOk};
ghost use Rattle.le_listing.specs.ClauseText.{quoted, variable_text, term_text, marked, all_marked};
ghost use Rattle.le_listing.specs.Symbols.{HasDay, at_item, at_tail, is_cell, symbol_text, symbols_text};

use crate::variables::Variables;
use itoa::Buffer;
use le_base::Text;
use le_terms::{Names, Sym, Term};
use le_values::write_day;
use std::alloc::{AllocError, Global};

/// Appends some terms, each between asterisks after one space.
pub fn push_all(
    alloc: Global,
    text: &mut Text,
    names: &Names,
    vars: &Variables,
    terms: &[Term],
) -> Result<(), AllocError>
    ensures { OnOk result (text.new ≡ text.old ++ all_marked names.now vars.now terms.now) }
{
    for term in terms {
        push_marked(alloc, text, names, vars, term)?;
    }
    Ok(())
}

/// Appends a term between asterisks after one space.
pub fn push_marked(
    alloc: Global,
    text: &mut Text,
    names: &Names,
    vars: &Variables,
    term: &Term,
) -> Result<(), AllocError>
    ensures { OnOk result (text.new ≡ text.old ++ marked names.now vars.now term.now) }
{
    text.push_str(" *")?;
    push_term(alloc, text, names, vars, term)?;
    text.push_str("*")
}

// Appends a term.
fn push_term(
    alloc: Global,
    text: &mut Text,
    names: &Names,
    vars: &Variables,
    term: &Term,
) -> Result<(), AllocError>
    ensures { OnOk result (text.new ≡ text.old ++ term_text names.now vars.now term.now) }
{
    push_symbols(alloc, text, names, vars, term.as_syms())
}

// Appends what symbols write, the first of which begins a term. After a cell an item begins, and
// after every other symbol the tail of the innermost list that is open.
fn push_symbols(
    alloc: Global,
    text: &mut Text,
    names: &Names,
    vars: &Variables,
    symbols: &[Sym],
) -> Result<(), AllocError>
    requires { All HasDay symbols.now }
    ensures { OnOk result (text.new ≡ text.old ++ symbols_text names.now vars.now true symbols.now) }
{
    let mut is_item = true;
    for symbol in symbols {
        push_symbol(alloc, text, names, vars, is_item, *symbol)?;
        is_item = is_cell(*symbol);
    }
    Ok(())
}

// Whether an item begins after a symbol.
fn is_cell(symbol: Sym) -> bool
    ensures { result ≡ is_cell symbol }
{
    matches!(symbol, Sym::Cons)
}

// Appends what a symbol writes, by whether an item begins with it.
fn push_symbol(
    alloc: Global,
    text: &mut Text,
    names: &Names,
    vars: &Variables,
    is_item: bool,
    symbol: Sym,
) -> Result<(), AllocError>
    requires { HasDay symbol }
    ensures { OnOk result (text.new ≡ text.old ++ symbol_text names.now vars.now is_item symbol) }
{
    if is_item {
        push_item(alloc, text, names, vars, symbol)
    } else {
        push_tail(alloc, text, names, vars, symbol)
    }
}

// Appends what a symbol writes where an item begins.
fn push_item(
    alloc: Global,
    text: &mut Text,
    names: &Names,
    vars: &Variables,
    symbol: Sym,
) -> Result<(), AllocError>
    requires { HasDay symbol }
    ensures { OnOk result (text.new ≡ text.old ++ at_item names.now vars.now symbol) }
{
    match symbol {
        Sym::Name(number) => push_name(text, name_at(names, number)),
        Sym::Num(number) => text.push_str(Buffer::new().format(number)),
        Sym::Day(day) => text.push_str(write_day(alloc, day)?.as_str()),
        Sym::Var(variable) => push_variable(text, vars, variable),
        Sym::Nil => text.push_str("[]"),
        Sym::Cons => text.push_str("["),
    }
}

// Appends what a symbol writes where the tail of a list begins.
fn push_tail(
    alloc: Global,
    text: &mut Text,
    names: &Names,
    vars: &Variables,
    symbol: Sym,
) -> Result<(), AllocError>
    requires { HasDay symbol }
    ensures { OnOk result (text.new ≡ text.old ++ at_tail names.now vars.now symbol) }
{
    match symbol {
        Sym::Cons => text.push_str(", "),
        Sym::Nil => text.push_str("]"),
        last => {
            text.push_str(" | ")?;
            push_item(alloc, text, names, vars, last)?;
            text.push_str("]")
        }
    }
}

/// Appends a variable.
pub fn push_variable(text: &mut Text, vars: &Variables, variable: u32) -> Result<(), AllocError>
    ensures { OnOk result (text.new ≡ text.old ++ variable_text vars.now variable) }
{
    text.push_str("V")?;
    text.push_str(Buffer::new().format(vars.place(variable)))
}

// The name of a number, or the empty text where no name has it.
fn name_at(names: &Names, number: u32) -> &str
    ensures { result.now ≡ slice_index_or names.now number [] }
{
    if number < names.count() {
        names.name(number)
    } else {
        ""
    }
}

// Appends a name between quotation marks.
fn push_name(text: &mut Text, name: &str) -> Result<(), AllocError>
    ensures { OnOk result (text.new ≡ text.old ++ quoted name.now) }
{
    text.push_str("\"")?;
    text.push_str(name)?;
    text.push_str("\"")
}

/// Appends a number in decimal digits.
pub fn push_number(text: &mut Text, number: u32) -> Result<(), AllocError>
    ensures { OnOk result (text.new ≡ text.old ++ decimal number) }
{
    text.push_str(Buffer::new().format(number))
}
