ghost use Rattle.std.specs.Prelude.{◌≡◌, [], ◌∷◌, ◌++◌, ◌==◌, ◌<◌, ◌≤◌, IfOk, IfSome, OnOk, length, position};
ghost use Rattle.le_prooftext.specs.Laws.{ReadsDerivation};
ghost use Rattle.le_prooftext.specs.Lines.{count_line, derivation_text, node_line, nodes_text};
ghost use Rattle.le_prooftext.specs.Reading.{derivation_of, nodes_from};

use crate::line::{count_of, node_of};
use crate::writing::{push_natural, push_node};
use le_base::Text;
use le_proofs::{Derivation, Node, Nodes};
use std::alloc::{AllocError, Global};

/// The text of a derivation: a line with the number of its nodes, and a line for each node.
pub fn write(alloc: Global, derivation: &Derivation) -> Result<Text, AllocError>
    ensures { IfOk result (λ text. text ≡ derivation_text derivation.now.nodes) }
{
    let mut text = Text::new(alloc);
    push_count(&mut text, derivation.nodes.as_slice().len())?;
    push_nodes(&mut text, derivation.nodes.as_slice())?;
    Ok(text)
}

// Appends the line with the number of nodes.
fn push_count(text: &mut Text, count: usize) -> Result<(), AllocError>
    ensures { OnOk result (text.new ≡ text.old ++ (count_line count ++ (10 ∷ []))) }
{
    text.push_str("derivation ")?;
    push_natural(text, count as u64)?;
    text.push_str("\n")
}

// Appends a line for each node.
fn push_nodes(text: &mut Text, nodes: &[Node]) -> Result<(), AllocError>
    ensures { OnOk result (text.new ≡ text.old ++ nodes_text nodes.now) }
{
    for node in nodes {
        push_line(text, node)?;
    }
    Ok(())
}

// Appends the line of a node.
fn push_line(text: &mut Text, node: &Node) -> Result<(), AllocError>
    ensures { OnOk result (text.new ≡ text.old ++ (node_line node.now ++ (10 ∷ []))) }
{
    push_node(text, node)?;
    text.push_str("\n")
}

/// The derivation whose text the bytes begin with, and the number of bytes of that text. `None` comes exactly where
/// they begin with the text of no derivation.
pub fn parse(alloc: Global, bytes: &[u8]) -> Result<Option<(Derivation, usize)>, AllocError>
    ensures value { IfOk result (λ read. read ≡ derivation_of bytes.now) }
    ensures exact { IfOk result (λ read. ReadsDerivation bytes.now read) }
{
    let Some(place) = line_end(bytes) else {
        return Ok(None);
    };
    let Some(count) = count_of(&bytes[..place]) else {
        return Ok(None);
    };
    let Some((nodes, length)) = nodes_from(alloc, count, &bytes[place + 1..])? else {
        return Ok(None);
    };
    Ok(Some((Derivation { nodes }, place + 1 + length)))
}

// The first place of an LF.
fn line_end(bytes: &[u8]) -> Option<usize>
    ensures place { result ≡ position (λ b. b == 10) bytes.now }
    ensures within { IfSome result (λ place. place < length bytes.now) }
{
    bytes.iter().position(|byte| *byte == b'\n')
}

// So many nodes, one from each line, and how many bytes their lines have.
fn nodes_from(alloc: Global, count: u64, bytes: &[u8]) -> Result<Option<(Nodes, usize)>, AllocError>
    ensures value { IfOk result (λ read. read ≡ nodes_from count bytes.now) }
    ensures within { IfOk result (λ read. IfSome read (λ r. r.1 ≤ length bytes.now)) }
{
    let mut nodes = Vec::new(alloc);
    let mut at = 0;
    for done in 0..count {
        let Some(place) = line_end(&bytes[at..]) else {
            return Ok(None);
        };
        let Some(node) = node_of(alloc, &bytes[at..at + place])? else {
            return Ok(None);
        };
        nodes.push(node)?;
        at += place + 1;
    }
    Ok(Some((Nodes::from_vec(nodes), at)))
}
