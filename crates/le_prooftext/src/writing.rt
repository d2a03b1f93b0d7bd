ghost use Rattle.std.specs.Prelude.{◌≡◌, [], ◌∷◌, ◌++◌, OnOk};
ghost use Rattle.std.specs.Fmt.{decimal, signed_decimal};
ghost use Rattle.le_prooftext.specs.Lines.{atom_words, node_line, term_words, terms_words};
ghost use Rattle.le_prooftext.specs.Words.{symbol_text, word_text};
ghost use Rattle.le_prooftext.specs.Writing.{spaced};

use crate::word::{NodeKind, Word, fold_text, kind_text};
use itoa::Buffer;
use le_base::{FoldKind, Text};
use le_proofs::Node;
use le_terms::{Atom, Sym, Term};
use std::alloc::AllocError;

// Appends a number.
pub(crate) fn push_natural(text: &mut Text, n: u64) -> Result<(), AllocError>
    ensures { OnOk result (text.new ≡ text.old ++ decimal n) }
{
    let mut buffer = Buffer::new();
    text.push_str(buffer.format(n))
}

// Appends a whole number.
fn push_whole(text: &mut Text, z: i64) -> Result<(), AllocError>
    ensures { OnOk result (text.new ≡ text.old ++ signed_decimal z) }
{
    let mut buffer = Buffer::new();
    text.push_str(buffer.format(z))
}

// Appends a symbol of a term.
fn push_symbol(text: &mut Text, symbol: Sym) -> Result<(), AllocError>
    ensures { OnOk result (text.new ≡ text.old ++ symbol_text symbol) }
{
    match symbol {
        Sym::Name(n) => {
            text.push_str("n")?;
            push_natural(text, u64::from(n))
        }
        Sym::Num(z) => {
            text.push_str("i")?;
            push_whole(text, z)
        }
        Sym::Day(d) => {
            text.push_str("d")?;
            push_whole(text, i64::from(d))
        }
        Sym::Var(v) => {
            text.push_str("v")?;
            push_natural(text, u64::from(v))
        }
        Sym::Nil => text.push_str("e"),
        Sym::Cons => text.push_str("c"),
    }
}

// Appends a word.
fn push_word(text: &mut Text, word: Word) -> Result<(), AllocError>
    ensures { OnOk result (text.new ≡ text.old ++ word_text word) }
{
    match word {
        Word::Kind(kind) => text.push_str(kind_text(kind)),
        Word::Fold(fold) => text.push_str(fold_text(fold)),
        Word::Count(n) => push_natural(text, u64::from(n)),
        Word::Pred(p) => {
            text.push_str("p")?;
            push_natural(text, u64::from(p))
        }
        Word::Symbol(symbol) => push_symbol(text, symbol),
    }
}

// Appends a space and a word.
fn push_spaced(text: &mut Text, word: Word) -> Result<(), AllocError>
    ensures { OnOk result (text.new ≡ text.old ++ spaced (word ∷ [])) }
{
    text.push_str(" ")?;
    push_word(text, word)
}

// Appends the words of a term, each after a space.
fn push_term(text: &mut Text, term: &Term) -> Result<(), AllocError>
    ensures { OnOk result (text.new ≡ text.old ++ spaced (term_words term.now)) }
{
    for symbol in term.as_syms() {
        push_spaced(text, Word::Symbol(*symbol))?;
    }
    Ok(())
}

// Appends the words of terms, each after a space.
fn push_terms(text: &mut Text, terms: &[Term]) -> Result<(), AllocError>
    ensures { OnOk result (text.new ≡ text.old ++ spaced (terms_words terms.now)) }
{
    for term in terms {
        push_term(text, term)?;
    }
    Ok(())
}

// Appends the words of an atom, each after a space.
fn push_atom(text: &mut Text, atom: &Atom) -> Result<(), AllocError>
    ensures { OnOk result (text.new ≡ text.old ++ spaced (atom_words atom.now)) }
{
    push_spaced(text, Word::Pred(atom.pred))?;
    push_terms(text, atom.args.as_slice())
}

// Appends the line of a use of a clause.
fn push_use(text: &mut Text, clause: u32, count: u32, atom: &Atom) -> Result<(), AllocError>
    ensures { OnOk result (text.new ≡ text.old ++ node_line (Node.Use clause count atom.now)) }
{
    push_word(text, Word::Kind(NodeKind::Use))?;
    push_spaced(text, Word::Count(clause))?;
    push_spaced(text, Word::Count(count))?;
    push_atom(text, atom)
}

// Appends the line of a gather.
fn push_gather(
    text: &mut Text,
    fold: FoldKind,
    total: &Term,
    value: &Term,
    atom: &Atom,
) -> Result<(), AllocError>
    ensures { OnOk result (text.new ≡ text.old ++ node_line (Node.Gather fold total.now value.now atom.now)) }
{
    push_word(text, Word::Kind(NodeKind::Gather))?;
    push_spaced(text, Word::Fold(fold))?;
    push_term(text, total)?;
    push_term(text, value)?;
    push_atom(text, atom)
}

// Appends the line of the proof of a computed literal.
fn push_compute(text: &mut Text, atom: &Atom) -> Result<(), AllocError>
    ensures { OnOk result (text.new ≡ text.old ++ node_line (Node.Compute atom.now)) }
{
    push_word(text, Word::Kind(NodeKind::Compute))?;
    push_atom(text, atom)
}

// Appends the line of the proof of a negation.
fn push_absent(text: &mut Text, atom: &Atom) -> Result<(), AllocError>
    ensures { OnOk result (text.new ≡ text.old ++ node_line (Node.Absent atom.now)) }
{
    push_word(text, Word::Kind(NodeKind::Absent))?;
    push_atom(text, atom)
}

// Appends the line of an atom in a tree.
fn push_split(text: &mut Text, count: u32) -> Result<(), AllocError>
    ensures { OnOk result (text.new ≡ text.old ++ node_line (Node.Split count)) }
{
    push_word(text, Word::Kind(NodeKind::Split))?;
    push_spaced(text, Word::Count(count))
}

// Appends the line of a branch.
fn push_branch(text: &mut Text, clause: u32) -> Result<(), AllocError>
    ensures { OnOk result (text.new ≡ text.old ++ node_line (Node.Branch clause)) }
{
    push_word(text, Word::Kind(NodeKind::Branch))?;
    push_spaced(text, Word::Count(clause))
}

// Appends the line of a node, without its LF.
pub(crate) fn push_node(text: &mut Text, node: &Node) -> Result<(), AllocError>
    ensures { OnOk result (text.new ≡ text.old ++ node_line node.now) }
{
    match node {
        Node::Use {
            clause,
            count,
            atom,
        } => push_use(text, *clause, *count, atom),
        Node::Compute { atom } => push_compute(text, atom),
        Node::Absent { atom } => push_absent(text, atom),
        Node::Gather {
            fold,
            result,
            value,
            atom,
        } => push_gather(text, *fold, result, value, atom),
        Node::Split { count } => push_split(text, *count),
        Node::Branch { clause } => push_branch(text, *clause),
        Node::Computed => push_word(text, Word::Kind(NodeKind::Computed)),
        Node::Lacking => push_word(text, Word::Kind(NodeKind::Lacking)),
        Node::Present => push_word(text, Word::Kind(NodeKind::Present)),
        Node::Gathered => push_word(text, Word::Kind(NodeKind::Gathered)),
        Node::Ungathered => push_word(text, Word::Kind(NodeKind::Ungathered)),
        Node::Success => push_word(text, Word::Kind(NodeKind::Success)),
        Node::Dead => push_word(text, Word::Kind(NodeKind::Dead)),
    }
}
