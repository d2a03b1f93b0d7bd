ghost use Rattle.std.specs.Prelude.{◌≡◌, ◌<◌, ◌≤◌, ◌^◌, length, map, IfOk};
ghost use Rattle.le_terms.specs.Variables.{replaced, place_in};
ghost use Rattle.le_proofs.specs.Goals.{terms_under, atom_under};
ghost use Rattle.le_proofs.specs.Derivations.{node_under};
ghost use Rattle.le_derivations.specs.Numbers.{by_of, key, numbered_by, renamed_symbol, CanChange};

use indexmap::IndexSet;
use le_proofs::Node;
use le_subst::Subst;
use le_terms::{Atom, Sym, Term, Terms};
use std::alloc::{AllocError, Global};

// What becomes of the variables of a node.
#[derive(Drop)]
pub(crate) enum Change<'a> {
    // They are replaced by the map's terms.
    Apply(&'a Subst),
    // They are numbered by their places among these keys, where their searches are fewer than the width and
    // theirs has this number.
    Number(&'a IndexSet<u64>, u64, u64),
}

// The node, changed so.
pub(crate) fn changed_node(
    alloc: Global,
    change: &Change<'_>,
    node: &Node,
) -> Result<Node, AllocError>
    requires { CanChange change.now }
    ensures { IfOk result (λ new. new ≡ node_under (by_of change.now) node.now) }
{
    match node {
        Node::Use {
            clause,
            count,
            atom,
        } => Ok(Node::Use {
            clause: *clause,
            count: *count,
            atom: changed_atom(alloc, change, atom)?,
        }),
        Node::Compute { atom } => Ok(Node::Compute {
            atom: changed_atom(alloc, change, atom)?,
        }),
        Node::Absent { atom } => Ok(Node::Absent {
            atom: changed_atom(alloc, change, atom)?,
        }),
        Node::Gather {
            fold,
            result,
            value,
            atom,
        } => Ok(Node::Gather {
            fold: *fold,
            result: changed_term(alloc, change, result)?,
            value: changed_term(alloc, change, value)?,
            atom: changed_atom(alloc, change, atom)?,
        }),
        Node::Split { count } => Ok(Node::Split { count: *count }),
        Node::Branch { clause } => Ok(Node::Branch { clause: *clause }),
        Node::Computed => Ok(Node::Computed),
        Node::Lacking => Ok(Node::Lacking),
        Node::Present => Ok(Node::Present),
        Node::Gathered => Ok(Node::Gathered),
        Node::Ungathered => Ok(Node::Ungathered),
        Node::Success => Ok(Node::Success),
        Node::Dead => Ok(Node::Dead),
    }
}

// The atom, changed so.
fn changed_atom(alloc: Global, change: &Change<'_>, atom: &Atom) -> Result<Atom, AllocError>
    requires { CanChange change.now }
    ensures { IfOk result (λ new. new ≡ atom_under (by_of change.now) atom.now) }
{
    let args = changed_terms(alloc, change, atom.args.as_slice())?;
    Ok(Atom {
        pred: atom.pred,
        args: Terms::from_vec(args),
    })
}

// The terms, changed so.
fn changed_terms(
    alloc: Global,
    change: &Change<'_>,
    terms: &[Term],
) -> Result<Vec<Term>, AllocError>
    requires { CanChange change.now }
    ensures { IfOk result (λ new. new.items ≡ terms_under (by_of change.now) terms.now) }
{
    let mut new = Vec::with_capacity(alloc, terms.len())?;
    for term in terms {
        new.push(changed_term(alloc, change, term)?)?;
    }
    Ok(new)
}

// The term, changed so.
fn changed_term(alloc: Global, change: &Change<'_>, term: &Term) -> Result<Term, AllocError>
    requires { CanChange change.now }
    ensures { IfOk result (λ new. new ≡ replaced (by_of change.now) term.now) }
{
    match change {
        Change::Apply(subst) => subst.apply(alloc, term),
        Change::Number(keys, width, scope) => numbered_term(alloc, keys, *width, *scope, term),
    }
}

// The term with its variables numbered.
fn numbered_term(
    alloc: Global,
    keys: &IndexSet<u64>,
    width: u64,
    scope: u64,
    term: &Term,
) -> Result<Term, AllocError>
    requires keys { length keys.now.keys < 2 ^ 32 }
    requires width { width ≤ 2 ^ 31 }
    requires scope { scope < width }
    ensures { IfOk result (λ new. new ≡ replaced (numbered_by keys.now.keys width scope) term.now) }
{
    let syms = numbered_syms(alloc, keys, width, scope, term.as_syms())?;
    Ok(Term::from_syms(syms))
}

// The symbols with their variables numbered.
fn numbered_syms(
    alloc: Global,
    keys: &IndexSet<u64>,
    width: u64,
    scope: u64,
    syms: &[Sym],
) -> Result<Vec<Sym>, AllocError>
    requires keys { length keys.now.keys < 2 ^ 32 }
    requires width { width ≤ 2 ^ 31 }
    requires scope { scope < width }
    ensures { IfOk result (λ new. new.items ≡ map (renamed_symbol (λ v. place_in keys.now.keys (key width scope v))) syms.now) }
{
    let mut new = Vec::with_capacity(alloc, syms.len())?;
    for sym in syms {
        new.push(numbered_sym(keys, width, scope, *sym))?;
    }
    Ok(new)
}

// The symbol with its variable numbered.
fn numbered_sym(keys: &IndexSet<u64>, width: u64, scope: u64, sym: Sym) -> Sym
    requires keys { length keys.now.keys < 2 ^ 32 }
    requires width { width ≤ 2 ^ 31 }
    requires scope { scope < width }
    ensures { result ≡ renamed_symbol (λ v. place_in keys.now.keys (key width scope v)) sym }
{
    match sym {
        Sym::Var(var) => Sym::Var(place_of(keys, key(width, scope, var))),
        other => other,
    }
}

// The place of a key among some, from 1, or 0 where it isn't there.
fn place_of(keys: &IndexSet<u64>, key: u64) -> u32
    requires { length keys.now.keys < 2 ^ 32 }
    ensures { result ≡ place_in keys.now.keys key }
{
    match keys.get_index_of(&key) {
        Some(place) => place as u32 + 1,
        None => 0,
    }
}

// The number of a variable of a search among those of all of them.
pub(crate) fn key(width: u64, scope: u64, var: u32) -> u64
    requires width { width ≤ 2 ^ 31 }
    requires scope { scope < width }
    ensures { result ≡ key width scope var }
{
    u64::from(var) * width + scope
}
