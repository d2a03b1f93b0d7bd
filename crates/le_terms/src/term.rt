ghost use Rattle.std.specs.Prelude.{◌≡◌, ◌-◌, ◌^◌, ◌<◌, [], ◌∷◌, ◌++◌, ◌↔◌, length, IsTrue, IfOk, IfSome};
ghost use Rattle.le_terms.specs.Tree.{Tree, BeginsWith, IsTerm, IsInRange, IsLeaf, tree_of, flat, root, cell};
ghost use Rattle.le_terms.specs.declared.term.Sym.TheVariants.{Cons};
ghost use Rattle.le_terms.specs.Walks.{wanted_after};

use le_base::{Copied, List};
use std::alloc::{AllocError, Global};
use std::marker::Model;

/// One symbol of a term.
#[derive(Clone, Copy, Debug, PartialEq, Eq)]
pub enum Sym {
    /// A constant, by the number of its name.
    Name(u32),
    /// A whole number.
    Num(i64),
    /// A date, as the number of days from 1970-01-01.
    Day(i32),
    /// A variable, by its number.
    Var(u32),
    /// The empty list.
    Nil,
    /// A cell of a list, whose head and tail stand after it.
    Cons,
}

/// A term: its symbols in preorder, which contracts see as a tree. Its numbers are from -10^18 to
/// 10^18, and its days are of the years 0001 to 9999.
#[derive(Debug, Drop)]
pub struct Term {
    syms: Vec<Sym>,
}

impl Model for Term {
    ghost use Rattle.le_terms.specs.Tree.{Tree, tree_of, tree_code, IsTerm};

    ghost Value = { Tree };

    ghost coded = { tree_code };

    ghost view = { λ t. tree_of t.syms.items };

    ghost invariant = { λ t. IsTerm t.syms.items };
}

impl Term {
    /// The term of these symbols, which are one term in preorder.
    pub fn from_syms(syms: Vec<Sym>) -> Self
        requires { IsTerm syms.items }
        ensures term { result ≡ tree_of syms.items }
        ensures symbols { flat result ≡ syms.items }
    {
        Term { syms }
    }

    /// The term of one symbol that isn't a cell.
    pub fn leaf(alloc: Global, sym: Sym) -> Result<Self, AllocError>
        requires { IsLeaf sym }
        ensures term { IfOk result (λ term. term ≡ tree_of (sym ∷ [])) }
        ensures symbols { IfOk result (λ term. flat term ≡ sym ∷ []) }
    {
        let mut syms = Vec::with_capacity(alloc, 1)?;
        syms.push(sym)?;
        Ok(Term { syms })
    }

    /// The cell of a list with this head and this tail.
    pub fn cons(alloc: Global, head: &Term, tail: &Term) -> Result<Self, AllocError>
        ensures { IfOk result (λ term. term ≡ cell head.now tail.now) }
    {
        let syms = cell_syms(alloc, head.as_syms(), tail.as_syms())?;
        Ok(Term { syms })
    }

    /// The symbols in preorder.
    pub fn as_syms(&self) -> &[Sym]
        ensures symbols { result.now ≡ flat self.now }
        ensures in_range { IsInRange self.now }
    {
        self.syms.as_slice()
    }

    /// The symbols in preorder, as the term keeps them.
    pub fn into_syms(self) -> Vec<Sym>
        ensures symbols { result.items ≡ flat self }
        ensures in_range { IsInRange self }
    {
        self.syms
    }

    /// The first symbol.
    pub fn root(&self) -> Sym
        ensures first { result ≡ root self.now }
        ensures in_range { IsInRange self.now }
    {
        self.syms[0]
    }

    /// Whether two terms are equal.
    pub fn equals(&self, other: &Term) -> bool
        ensures { IsTrue result ↔ (self.now ≡ other.now) }
    {
        self.as_syms() == other.as_syms()
    }
}

impl Copied for Term {
    fn copy(&self, alloc: Global) -> Result<Self, AllocError> {
        let syms = Vec::from_slice(alloc, self.syms.as_slice())?;
        Ok(Term { syms })
    }
}

/// The number of symbols of the term that some symbols in preorder begin with, whatever stands after
/// it. `None` comes exactly where no first part of them is a term.
pub fn first_term_len(syms: &[Sym]) -> Option<usize>
    ensures found { IfSome result (λ n. (tree : Tree) × BeginsWith tree syms.now × (n ≡ length (flat tree))) }
    ensures every { (tree : Tree) → BeginsWith tree syms.now → result ≡ Some (length (flat tree)) }
{
    let mut wanted = 1;
    for (place, sym) in syms.iter().enumerate() {
        wanted = wanted_after(*sym, wanted);
        if wanted == 0 {
            return Some(place + 1);
        }
    }
    None
}

// How many terms are wanted after a symbol, where so many were wanted before it.
fn wanted_after(sym: Sym, wanted: usize) -> usize
    requires some { 0 < wanted }
    requires fits { wanted < 2 ^ 64 - 1 }
    ensures { result ≡ wanted_after sym (wanted - 1) }
{
    match sym {
        Sym::Cons => wanted + 1,
        _ => wanted - 1,
    }
}

// The symbols of a cell with the symbols of its head and of its tail.
fn cell_syms(alloc: Global, head: &[Sym], tail: &[Sym]) -> Result<Vec<Sym>, AllocError>
    ensures { IfOk result (λ syms. syms.items ≡ Cons ∷ (head.now ++ tail.now)) }
{
    let mut syms = Vec::new(alloc);
    syms.push(Sym::Cons)?;
    syms.extend_from_slice(head)?;
    syms.extend_from_slice(tail)?;
    Ok(syms)
}

/// Some terms.
pub type Terms = List<Term>;

// Whether both are the same terms in the same order.
pub(crate) fn same_terms(terms: &[Term], others: &[Term]) -> bool
    ensures { IsTrue result ↔ (terms.now ≡ others.now) }
{
    if terms.len() != others.len() {
        return false;
    }
    for (place, term) in terms.iter().enumerate() {
        if !term.equals(&others[place]) {
            return false;
        }
    }
    true
}
