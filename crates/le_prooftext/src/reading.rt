ghost use Rattle.std.specs.Prelude.{◌≡◌, ◌<◌, IfOk, IfSome, Some, length, position};
ghost use Rattle.std.specs.List.{AllByRecursion};
ghost use Rattle.std.specs.Option.{option_map};
ghost use Rattle.le_prooftext.specs.Reading.{alone, atom_from, gather_at, gather_from, gather_of, is_pred, kind_from, node_from, one_count, symbols_from, terms_from, trees_from, use_counted, use_from};
ghost use Rattle.le_prooftext.specs.Words.{IsSymbol, IsWord};
ghost use Rattle.le_terms.specs.Tree.{BeginsWith, Tree};

use crate::word::{NodeKind, Word};
use le_base::FoldKind;
use le_proofs::Node;
use le_terms::{Atom, Sym, Term, Terms, first_term_len};
use std::alloc::{AllocError, Global};

// The symbols that some words are, where each is one.
fn symbols_from(alloc: Global, words: &[Word]) -> Result<Option<Vec<Sym>>, AllocError>
    ensures { IfOk result (λ found. option_map (λ symbols. symbols.items) found ≡ symbols_from words.now) }
{
    let mut symbols = Vec::new(alloc);
    for word in words {
        let Word::Symbol(symbol) = *word else {
            return Ok(None);
        };
        symbols.push(symbol)?;
    }
    Ok(Some(symbols))
}

// The term that some symbols begin with.
fn first_term(alloc: Global, symbols: &[Sym]) -> Result<Option<Term>, AllocError>
    requires { AllByRecursion IsSymbol symbols.now }
    ensures found { IfOk result (λ found. IfSome found (λ tree. BeginsWith tree symbols.now)) }
    ensures every { IfOk result (λ found. (tree : Tree) → BeginsWith tree symbols.now → found ≡ Some tree) }
{
    let Some(count) = first_term_len(symbols) else {
        return Ok(None);
    };
    let own = Vec::from_slice(alloc, &symbols[..count])?;
    Ok(Some(Term::from_syms(own)))
}

// The terms whose symbols these are, one term after another.
fn trees_from(alloc: Global, symbols: &[Sym]) -> Result<Option<Terms>, AllocError>
    requires { AllByRecursion IsSymbol symbols.now }
    ensures { IfOk result (λ terms. terms ≡ trees_from symbols.now) }
{
    let mut terms = Vec::new(alloc);
    let mut at = 0;
    while at < symbols.len() {
        let Some(term) = first_term(alloc, &symbols[at..])? else {
            return Ok(None);
        };
        at += term.as_syms().len();
        terms.push(term)?;
    }
    Ok(Some(Terms::from_vec(terms)))
}

// The terms of some words.
fn terms_from(alloc: Global, words: &[Word]) -> Result<Option<Terms>, AllocError>
    requires { AllByRecursion IsWord words.now }
    ensures { IfOk result (λ terms. terms ≡ terms_from words.now) }
{
    let Some(symbols) = symbols_from(alloc, words)? else {
        return Ok(None);
    };
    trees_from(alloc, symbols.as_slice())
}

// The atom of some words: the predicate, and then its terms.
fn atom_from(alloc: Global, words: &[Word]) -> Result<Option<Atom>, AllocError>
    requires { AllByRecursion IsWord words.now }
    ensures { IfOk result (λ atom. atom ≡ atom_from words.now) }
{
    let Some((Word::Pred(pred), rest)) = words.split_first() else {
        return Ok(None);
    };
    let Some(args) = terms_from(alloc, rest)? else {
        return Ok(None);
    };
    Ok(Some(Atom { pred: *pred, args }))
}

// The number that some words are.
fn one_count(words: &[Word]) -> Option<u32>
    ensures { result ≡ one_count words.now }
{
    match words {
        [Word::Count(n)] => Some(*n),
        _ => None,
    }
}

// The use of a clause, from the words that follow its number.
fn use_counted(alloc: Global, clause: u32, words: &[Word]) -> Result<Option<Node>, AllocError>
    requires { AllByRecursion IsWord words.now }
    ensures { IfOk result (λ node. node ≡ use_counted clause words.now) }
{
    let Some((Word::Count(count), rest)) = words.split_first() else {
        return Ok(None);
    };
    let Some(atom) = atom_from(alloc, rest)? else {
        return Ok(None);
    };
    Ok(Some(Node::Use {
        clause,
        count: *count,
        atom,
    }))
}

// The use of a clause, from the words that follow the first.
fn use_from(alloc: Global, words: &[Word]) -> Result<Option<Node>, AllocError>
    requires { AllByRecursion IsWord words.now }
    ensures { IfOk result (λ node. node ≡ use_from words.now) }
{
    let Some((Word::Count(clause), rest)) = words.split_first() else {
        return Ok(None);
    };
    use_counted(alloc, *clause, rest)
}

// Whether a word is a predicate.
fn is_pred(word: Word) -> bool
    ensures { result ≡ is_pred word }
{
    matches!(word, Word::Pred(_))
}

// The first place of a predicate.
fn pred_place(words: &[Word]) -> Option<usize>
    ensures place { result ≡ position is_pred words.now }
    ensures within { IfSome result (λ place. place < length words.now) }
{
    words.iter().position(|word| is_pred(*word))
}

// A gather of two terms and an atom.
fn gather_of(fold: FoldKind, terms: Terms, atom: Atom) -> Option<Node>
    ensures { result ≡ gather_of fold (Some terms) (Some atom) }
{
    let mut items = terms.into_vec();
    if items.len() != 2 {
        return None;
    }
    let value = items.pop()?;
    let result = items.pop()?;
    Some(Node::Gather {
        fold,
        result,
        value,
        atom,
    })
}

// A gather, from the words that follow the fold.
fn gather_at(alloc: Global, fold: FoldKind, words: &[Word]) -> Result<Option<Node>, AllocError>
    requires { AllByRecursion IsWord words.now }
    ensures { IfOk result (λ node. node ≡ gather_at fold words.now (position is_pred words.now)) }
{
    let Some(place) = pred_place(words) else {
        return Ok(None);
    };
    let Some(terms) = terms_from(alloc, &words[..place])? else {
        return Ok(None);
    };
    let Some(atom) = atom_from(alloc, &words[place..])? else {
        return Ok(None);
    };
    Ok(gather_of(fold, terms, atom))
}

// A gather, from the words that follow the first.
fn gather_from(alloc: Global, words: &[Word]) -> Result<Option<Node>, AllocError>
    requires { AllByRecursion IsWord words.now }
    ensures { IfOk result (λ node. node ≡ gather_from words.now) }
{
    let Some((Word::Fold(fold), rest)) = words.split_first() else {
        return Ok(None);
    };
    gather_at(alloc, *fold, rest)
}

// A node that has no word but its kind.
fn alone(node: Node, words: &[Word]) -> Option<Node>
    ensures { result ≡ alone node words.now }
{
    if words.is_empty() { Some(node) } else { None }
}

// The proof of a computed literal.
fn compute_from(alloc: Global, words: &[Word]) -> Result<Option<Node>, AllocError>
    requires { AllByRecursion IsWord words.now }
    ensures { IfOk result (λ node. node ≡ kind_from NodeKind.Compute words.now) }
{
    let Some(atom) = atom_from(alloc, words)? else {
        return Ok(None);
    };
    Ok(Some(Node::Compute { atom }))
}

// The proof of a negation.
fn absent_from(alloc: Global, words: &[Word]) -> Result<Option<Node>, AllocError>
    requires { AllByRecursion IsWord words.now }
    ensures { IfOk result (λ node. node ≡ kind_from NodeKind.Absent words.now) }
{
    let Some(atom) = atom_from(alloc, words)? else {
        return Ok(None);
    };
    Ok(Some(Node::Absent { atom }))
}

// An atom in a tree.
fn split_from(words: &[Word]) -> Option<Node>
    ensures { result ≡ kind_from NodeKind.Split words.now }
{
    let count = one_count(words)?;
    Some(Node::Split { count })
}

// A branch.
fn branch_from(words: &[Word]) -> Option<Node>
    ensures { result ≡ kind_from NodeKind.Branch words.now }
{
    let clause = one_count(words)?;
    Some(Node::Branch { clause })
}

// A node of a kind, from the words that follow it.
fn kind_from(alloc: Global, kind: NodeKind, words: &[Word]) -> Result<Option<Node>, AllocError>
    requires { AllByRecursion IsWord words.now }
    ensures { IfOk result (λ node. node ≡ kind_from kind words.now) }
{
    match kind {
        NodeKind::Use => use_from(alloc, words),
        NodeKind::Compute => compute_from(alloc, words),
        NodeKind::Absent => absent_from(alloc, words),
        NodeKind::Gather => gather_from(alloc, words),
        NodeKind::Split => Ok(split_from(words)),
        NodeKind::Branch => Ok(branch_from(words)),
        NodeKind::Computed => Ok(alone(Node::Computed, words)),
        NodeKind::Lacking => Ok(alone(Node::Lacking, words)),
        NodeKind::Present => Ok(alone(Node::Present, words)),
        NodeKind::Gathered => Ok(alone(Node::Gathered, words)),
        NodeKind::Ungathered => Ok(alone(Node::Ungathered, words)),
        NodeKind::Success => Ok(alone(Node::Success, words)),
        NodeKind::Dead => Ok(alone(Node::Dead, words)),
    }
}

// The node of some words.
pub(crate) fn node_from(alloc: Global, words: &[Word]) -> Result<Option<Node>, AllocError>
    requires { AllByRecursion IsWord words.now }
    ensures { IfOk result (λ node. node ≡ node_from words.now) }
{
    let Some((Word::Kind(kind), rest)) = words.split_first() else {
        return Ok(None);
    };
    kind_from(alloc, *kind, rest)
}
