ghost use Rattle.std.specs.Prelude.{◌≡◌, ◌+◌, ◌<◌, ◌≤◌, ◌++◌, [], drop, length, reverse, IfOk, OnOk};
ghost use Rattle.le_english.specs.Explanations.{explanation, lines_of, pending_at, pending_below, depth_below, unshown_below};
ghost use Rattle.le_english.specs.Said.{IsKnown};

use crate::lines::{clause_at, node_line};
use crate::pending::{Pending, push_literals};
use crate::said::Said;
use crate::unshown::first_parts;
use le_base::Text;
use le_proofs::{Derivation, Node};
use le_templates::Templates;
use le_terms::{Clause, ClauseKind, Names, Program};
use std::alloc::{AllocError, Global};

/// The lines that explain an answer, from its derivation by the program: one for each use of a written or
/// predefined clause, each computed sentence, each negation and each gather, four spaces for each step of
/// depth. What stands below a negation or a gather isn't shown. The text is defined for every list of
/// nodes; one that isn't a derivation of the program may have lines without a sentence.
#[tactic(auto, unfolding(crate::specs::Explanations::explanation))]
pub fn explain(
    alloc: Global,
    templates: &Templates,
    names: &Names,
    program: &Program,
    derivation: &Derivation,
) -> Result<Text, AllocError>
    ensures { IfOk result (λ text. text ≡ explanation templates.now names.now program.now derivation.now.nodes) }
{
    let mut so_far = Explained {
        text: Text::new(alloc),
        pending: Vec::new(alloc),
        last: None,
    };
    push_literals(&mut so_far.pending, 1, program.query.as_slice())?;
    let nodes = derivation.nodes.as_slice();
    let mut at = 0;
    while at < nodes.len() && !so_far.pending.is_empty() {
        at += so_far.explain_proof(alloc, templates, names, program, &nodes[at..])?;
    }
    Ok(so_far.text)
}

// An explanation up to some node: its text, the literals whose proofs are still to come, the next one
// last, and the last atom that was said.
#[derive(Drop)]
struct Explained {
    text: Text,
    pending: Vec<Pending>,
    last: Option<Said>,
}

impl Explained {
    // Explains the proof that nodes begin with, up to those of the literals of its clause's body, and
    // gives how many nodes this is.
    fn explain_proof(
        &mut self,
        alloc: Global,
        templates: &Templates,
        names: &Names,
        program: &Program,
        nodes: &[Node],
    ) -> Result<usize, AllocError>
        requires nodes { 0 < length nodes.now }
        requires pending { 0 < length self.old.pending.items }
        requires known { IsKnown templates.now names.now self.old.last }
        ensures known { OnOk result (IsKnown templates.now names.now self.new.last) }
        ensures some { IfOk result (λ n. 0 < n) }
        ensures within { IfOk result (λ n. n ≤ length nodes.now) }
        ensures rest { IfOk result (λ n. self.new.text ++ lines_of templates.now names.now program.now 0 (reverse self.new.pending.items) (drop n nodes.now) ≡ self.old.text ++ lines_of templates.now names.now program.now 0 (reverse self.old.pending.items) nodes.now) }
    {
        let at = self.pending.pop().unwrap();
        let node = &nodes[0];
        let passed = first_parts(&nodes[1..], unshown_below(node))?;
        let line = node_line(
            alloc,
            templates,
            names,
            program,
            at,
            node,
            passed.leaves,
            &mut self.last,
        )?;
        self.text.push_str(line.as_str())?;
        push_below(&mut self.pending, program, at.depth, node)?;
        Ok(1 + passed.len)
    }
}

// How many parts below a node aren't shown.
fn unshown_below(node: &Node) -> u32
    ensures { result ≡ unshown_below node.now }
{
    match node {
        Node::Use { .. } | Node::Compute { .. } | Node::Success | Node::Dead => 0,
        Node::Split { count } => *count,
        Node::Lacking | Node::Gathered => 2,
        _ => 1,
    }
}

// Pushes the literals that the proofs below a node prove.
fn push_below(
    pending: &mut Vec<Pending>,
    program: &Program,
    depth: usize,
    node: &Node,
) -> Result<(), AllocError>
    ensures { OnOk result (reverse pending.new.items ≡ pending_below program.now depth node.now (reverse pending.old.items)) }
{
    let Node::Use { clause, .. } = node else {
        return Ok(());
    };
    match clause_at(program, *clause) {
        Some(clause) => push_body(pending, depth, clause),
        None => Ok(()),
    }
}

// Pushes the literals of a clause's body. The error is that of a depth that no text has.
fn push_body(pending: &mut Vec<Pending>, depth: usize, clause: &Clause) -> Result<(), AllocError>
    ensures { OnOk result (reverse pending.new.items ≡ pending_at (depth_below clause.now.kind depth) clause.now.body (reverse pending.old.items)) }
{
    let below = depth_below(clause.kind, depth)?;
    push_literals(pending, below, clause.body.as_slice())
}

// The depth of what stands below the use of a clause.
fn depth_below(kind: ClauseKind, depth: usize) -> Result<usize, AllocError>
    ensures { IfOk result (λ below. below ≡ depth_below kind depth) }
{
    if kind == ClauseKind::Branch {
        return Ok(depth);
    }
    match depth.checked_add(1) {
        Some(below) => Ok(below),
        None => Err(AllocError),
    }
}
