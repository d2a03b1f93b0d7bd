ghost use Rattle.std.specs.Prelude.{◌≡◌, [], ◌∷◌, pos, length};
ghost use Rattle.le_terms.specs.Tree.{Tree, cell, tree_of, flat, root};
ghost use Rattle.le_builtins.specs.Lists.{list_length, last_tail};
ghost use Rattle.le_builtins.specs.Sentences.{a_list};
ghost use Rattle.le_builtins.specs.Compute.{number_result, answered, settled, GivesLeaf};

use crate::Calc;
use crate::arithmetic::number_result;
use le_terms::{Sym, Term, first_term_len};

/// What "is the length of" answers for its list.
pub(crate) fn length_of(list: &Term) -> Calc
    ensures answer { result ≡ answered (a_list ∷ []) (list.now ∷ []) (number_result (pos (list_length list.now))) }
    ensures in_range { GivesLeaf result }
{
    let (items, end) = list_end(list.as_syms());
    match end {
        Sym::Var(_) => Calc::Unbound,
        Sym::Nil => length_result(items),
        _ => Calc::No,
    }
}

/// How many items a list has, and the symbol of what stands after the last of them.
fn list_end(list: &[Sym]) -> (usize, Sym)
    requires { flat (tree_of list.now) ≡ list.now }
    ensures items { result.0 ≡ list_length (tree_of list.now) }
    ensures end { result.1 ≡ root (last_tail (tree_of list.now)) }
{
    let mut rest = list;
    let mut items = 0;
    while let Sym::Cons = rest[0] {
        items += 1;
        rest = tail_of(rest);
    }
    (items, rest[0])
}

/// The symbols of a cell's tail, which stand after those of its head.
fn tail_of(list: &[Sym]) -> &[Sym]
    requires { (head : Tree) × (tail : Tree) × (list.now ≡ flat (cell head tail)) }
    ensures { (head : Tree) → (tail : Tree) → list.now ≡ flat (cell head tail) → result.now ≡ flat tail }
{
    let behind = &list[1..];
    let head = first_term_len(behind).unwrap();
    &behind[head..]
}

/// A number of items as a result: Range where it is above 10^18.
fn length_result(items: usize) -> Calc
    ensures answer { result ≡ settled (number_result (pos items)) }
    ensures in_range { GivesLeaf result }
{
    match i64::try_from(items) {
        Ok(n) => number_result(n),
        Err(_) => Calc::Range,
    }
}
