ghost use Rattle.std.specs.Prelude.{◌≡◌, List};
ghost use Rattle.le_prooftext.specs.Words.{kind_text, fold_text};
ghost use Rattle.le_prooftext.specs.Reading.{fixed_of, fold_of, kind_of, lettered, list_symbol, word_of};

use crate::number::{day_of, small_of, whole_of};
use le_base::FoldKind;
use le_terms::Sym;

/// What the line of a node begins with.
#[derive(Clone, Copy, Debug, PartialEq, Eq)]
pub enum NodeKind {
    /// The proof of an atom by a clause.
    Use,
    /// The proof of a computed literal.
    Compute,
    /// The proof of a negation.
    Absent,
    /// The proof of a gather.
    Gather,
    /// An atom in a tree.
    Split,
    /// A branch.
    Branch,
    /// A computed literal in a tree that holds.
    Computed,
    /// A negation in a tree that holds.
    Lacking,
    /// A negation in a tree that fails.
    Present,
    /// A gather in a tree whose result fits.
    Gathered,
    /// A gather in a tree that fails.
    Ungathered,
    /// An empty goal in a tree.
    Success,
    /// A computed literal in a tree that doesn't hold.
    Dead,
}

/// A word of a line.
#[derive(Clone, Copy, Debug, PartialEq, Eq)]
pub enum Word {
    /// The kind of the line's node.
    Kind(NodeKind),
    /// What is made of the values at all cases.
    Fold(FoldKind),
    /// A clause's number, or a count.
    Count(u32),
    /// A predicate.
    Pred(u32),
    /// A symbol of a term.
    Symbol(Sym),
}

/// The kinds of node.
const KINDS: [NodeKind; 13] = [
    NodeKind::Use,
    NodeKind::Compute,
    NodeKind::Absent,
    NodeKind::Gather,
    NodeKind::Split,
    NodeKind::Branch,
    NodeKind::Computed,
    NodeKind::Lacking,
    NodeKind::Present,
    NodeKind::Gathered,
    NodeKind::Ungathered,
    NodeKind::Success,
    NodeKind::Dead,
];

/// What is made of the values at all cases, each of them.
const FOLDS: [FoldKind; 3] = [FoldKind::Sum, FoldKind::Number, FoldKind::Greatest];

// The word of a kind of node.
pub(crate) fn kind_text(kind: NodeKind) -> &'static str
    ensures { result.now ≡ kind_text kind }
{
    match kind {
        NodeKind::Use => "use",
        NodeKind::Compute => "compute",
        NodeKind::Absent => "absent",
        NodeKind::Gather => "gather",
        NodeKind::Split => "split",
        NodeKind::Branch => "branch",
        NodeKind::Computed => "computed",
        NodeKind::Lacking => "lacking",
        NodeKind::Present => "present",
        NodeKind::Gathered => "gathered",
        NodeKind::Ungathered => "ungathered",
        NodeKind::Success => "success",
        NodeKind::Dead => "dead",
    }
}

// The word of a fold.
pub(crate) fn fold_text(fold: FoldKind) -> &'static str
    ensures { result.now ≡ fold_text fold }
{
    match fold {
        FoldKind::Sum => "sum",
        FoldKind::Number => "number",
        FoldKind::Greatest => "greatest",
    }
}

// The kind of node that some bytes spell.
#[tactic(auto, unfolding(crate::specs::Reading::kind_of))]
fn kind_of(bytes: &[u8]) -> Option<NodeKind>
    ensures { result ≡ kind_of bytes.now }
{
    KINDS
        .iter()
        .copied()
        .find(|kind| kind_text(*kind).as_bytes() == bytes)
}

// The fold that some bytes spell.
#[tactic(auto, unfolding(crate::specs::Reading::fold_of))]
fn fold_of(bytes: &[u8]) -> Option<FoldKind>
    ensures { result ≡ fold_of bytes.now }
{
    FOLDS
        .iter()
        .copied()
        .find(|fold| fold_text(*fold).as_bytes() == bytes)
}

// The empty list or the cell that some bytes spell.
#[tactic(auto, unfolding(crate::specs::Reading::list_symbol))]
fn list_symbol(bytes: &[u8]) -> Option<Word>
    ensures { result ≡ list_symbol bytes.now }
{
    if bytes == b"e".as_slice() {
        return Some(Word::Symbol(Sym::Nil));
    }
    if bytes == b"c".as_slice() {
        return Some(Word::Symbol(Sym::Cons));
    }
    None
}

// The word without a number that some bytes spell.
#[tactic(auto, unfolding(crate::specs::Reading::fixed_of))]
fn fixed_of(bytes: &[u8]) -> Option<Word>
    ensures { result ≡ fixed_of bytes.now }
{
    if let Some(word) = list_symbol(bytes) {
        return Some(word);
    }
    if let Some(kind) = kind_of(bytes) {
        return Some(Word::Kind(kind));
    }
    let fold = fold_of(bytes)?;
    Some(Word::Fold(fold))
}

// The word of a letter and a number.
#[tactic(auto, unfolding(crate::specs::Reading::lettered))]
fn lettered(letter: u8, digits: &[u8]) -> Option<Word>
    ensures { result ≡ lettered letter digits.now }
{
    if letter == b'n' {
        let n = small_of(digits)?;
        return Some(Word::Symbol(Sym::Name(n)));
    }
    if letter == b'i' {
        let z = whole_of(digits)?;
        return Some(Word::Symbol(Sym::Num(z)));
    }
    if letter == b'd' {
        let d = day_of(digits)?;
        return Some(Word::Symbol(Sym::Day(d)));
    }
    if letter == b'v' {
        let v = small_of(digits)?;
        return Some(Word::Symbol(Sym::Var(v)));
    }
    if letter == b'p' {
        let p = small_of(digits)?;
        return Some(Word::Pred(p));
    }
    None
}

// The word that some bytes spell.
#[tactic(auto, unfolding(crate::specs::Reading::word_of))]
pub(crate) fn word_of(bytes: &[u8]) -> Option<Word>
    ensures { result ≡ word_of bytes.now }
{
    if let Some(n) = small_of(bytes) {
        return Some(Word::Count(n));
    }
    let Some((letter, digits)) = bytes.split_first() else {
        return None;
    };
    if let Some(word) = lettered(*letter, digits) {
        return Some(word);
    }
    fixed_of(bytes)
}
