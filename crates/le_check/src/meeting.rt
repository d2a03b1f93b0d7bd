ghost use Rattle.std.specs.Prelude.{◌≡◌, IfOk};
ghost use Rattle.le_proofs.specs.Replay.{met, kind_of};
ghost use Rattle.le_check.specs.Meetings.{meeting_of, kind_by};
ghost use Rattle.le_terms.specs.declared.program.Form.TheVariants.{Pos, Neg, Calc, Gather};

use le_base::{Copied, FoldKind};
use le_proofs::Node;
use le_terms::{Atom, Form, Term};
use std::alloc::{AllocError, Global};

// A literal with the node that claims a proof of it.
#[derive(Drop)]
pub(crate) enum Meeting {
    // An atom, with a clause's number, and how many literals its body should have.
    ByClause(Atom, u32, u32),
    // A computed literal.
    ByComputing(Atom),
    // A negation.
    ByFailure(Atom),
    // A gather: what is made of the values, the result, the value, and the atom.
    ByGathering(FoldKind, Term, Term, Atom),
    // Others.
    Unfit,
}

// A literal with the node that claims its proof.
pub(crate) fn meet(alloc: Global, form: &Form, node: &Node) -> Result<Meeting, AllocError>
    ensures { IfOk result (λ meeting. meeting_of meeting ≡ met form.now node.now) }
{
    match form {
        Form::Pos(atom) => meet_atom(alloc, atom, node),
        Form::Calc(atom) => meet_computed(alloc, atom, node),
        Form::Neg(atom) => meet_negation(alloc, atom, node),
        Form::Gather {
            fold,
            result,
            value,
            atom,
        } => meet_gather(alloc, *fold, result, value, atom, node),
    }
}

// An atom with a node.
fn meet_atom(alloc: Global, atom: &Atom, node: &Node) -> Result<Meeting, AllocError>
    ensures { IfOk result (λ meeting. meeting_of meeting ≡ met (Pos atom.now) node.now) }
{
    match node {
        Node::Use { clause, count, .. } => {
            Ok(Meeting::ByClause(atom.copy(alloc)?, *clause, *count))
        }
        _ => Ok(Meeting::Unfit),
    }
}

// A computed literal with a node.
fn meet_computed(alloc: Global, atom: &Atom, node: &Node) -> Result<Meeting, AllocError>
    ensures { IfOk result (λ meeting. meeting_of meeting ≡ met (Calc atom.now) node.now) }
{
    match node {
        Node::Compute { .. } => Ok(Meeting::ByComputing(atom.copy(alloc)?)),
        _ => Ok(Meeting::Unfit),
    }
}

// A negation with a node.
fn meet_negation(alloc: Global, atom: &Atom, node: &Node) -> Result<Meeting, AllocError>
    ensures { IfOk result (λ meeting. meeting_of meeting ≡ met (Neg atom.now) node.now) }
{
    match node {
        Node::Absent { .. } => Ok(Meeting::ByFailure(atom.copy(alloc)?)),
        _ => Ok(Meeting::Unfit),
    }
}

// A gather with a node.
fn meet_gather(
    alloc: Global,
    fold: FoldKind,
    target: &Term,
    value: &Term,
    atom: &Atom,
    node: &Node,
) -> Result<Meeting, AllocError>
    ensures { IfOk result (λ meeting. meeting_of meeting ≡ met (Gather fold target.now value.now atom.now) node.now) }
{
    match node {
        Node::Gather { .. } => Ok(Meeting::ByGathering(
            fold,
            target.copy(alloc)?,
            value.copy(alloc)?,
            atom.copy(alloc)?,
        )),
        _ => Ok(Meeting::Unfit),
    }
}

// A literal with the node that claims a part of a tree for it.
#[derive(Drop)]
pub(crate) enum Kind {
    // An atom, with how many branches it should have.
    Splits(Atom, u32),
    // A computed literal that should hold.
    Computes(Atom),
    // A computed literal that should not.
    Dies(Atom),
    // A negation that should hold.
    Lacks(Atom),
    // A negation that should not.
    Presents(Atom),
    // A gather that should hold.
    Gathers(FoldKind, Term, Term, Atom),
    // A gather that should not.
    Misses(FoldKind, Term, Term, Atom),
    // Others.
    Other,
}

// A literal with the node of a tree.
pub(crate) fn claim(alloc: Global, form: &Form, node: &Node) -> Result<Kind, AllocError>
    ensures { IfOk result (λ kind. kind_by kind ≡ kind_of form.now node.now) }
{
    match form {
        Form::Pos(atom) => kind_atom(alloc, atom, node),
        Form::Calc(atom) => kind_computed(alloc, atom, node),
        Form::Neg(atom) => kind_negation(alloc, atom, node),
        Form::Gather {
            fold,
            result,
            value,
            atom,
        } => kind_gather(alloc, *fold, result, value, atom, node),
    }
}

// An atom with a tree's node.
fn kind_atom(alloc: Global, atom: &Atom, node: &Node) -> Result<Kind, AllocError>
    ensures { IfOk result (λ kind. kind_by kind ≡ kind_of (Pos atom.now) node.now) }
{
    match node {
        Node::Split { count } => Ok(Kind::Splits(atom.copy(alloc)?, *count)),
        _ => Ok(Kind::Other),
    }
}

// A computed literal with a tree's node.
fn kind_computed(alloc: Global, atom: &Atom, node: &Node) -> Result<Kind, AllocError>
    ensures { IfOk result (λ kind. kind_by kind ≡ kind_of (Calc atom.now) node.now) }
{
    match node {
        Node::Computed => Ok(Kind::Computes(atom.copy(alloc)?)),
        Node::Dead => Ok(Kind::Dies(atom.copy(alloc)?)),
        _ => Ok(Kind::Other),
    }
}

// A negation with a tree's node.
fn kind_negation(alloc: Global, atom: &Atom, node: &Node) -> Result<Kind, AllocError>
    ensures { IfOk result (λ kind. kind_by kind ≡ kind_of (Neg atom.now) node.now) }
{
    match node {
        Node::Lacking => Ok(Kind::Lacks(atom.copy(alloc)?)),
        Node::Present => Ok(Kind::Presents(atom.copy(alloc)?)),
        _ => Ok(Kind::Other),
    }
}

// A gather with a tree's node.
fn kind_gather(
    alloc: Global,
    fold: FoldKind,
    target: &Term,
    value: &Term,
    atom: &Atom,
    node: &Node,
) -> Result<Kind, AllocError>
    ensures { IfOk result (λ kind. kind_by kind ≡ kind_of (Gather fold target.now value.now atom.now) node.now) }
{
    match node {
        Node::Gathered => Ok(Kind::Gathers(
            fold,
            target.copy(alloc)?,
            value.copy(alloc)?,
            atom.copy(alloc)?,
        )),
        Node::Ungathered => Ok(Kind::Misses(
            fold,
            target.copy(alloc)?,
            value.copy(alloc)?,
            atom.copy(alloc)?,
        )),
        _ => Ok(Kind::Other),
    }
}
