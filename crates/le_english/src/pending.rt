ghost use Rattle.std.specs.Prelude.{◌≡◌, reverse, OnOk};
ghost use Rattle.le_english.specs.Explanations.{pending_at};

use le_terms::Literal;
use std::alloc::AllocError;

/// A literal whose proof is still to be explained.
#[derive(Clone, Copy, Debug)]
pub struct Pending {
    /// How deep its line stands, from 1.
    pub depth: usize,
    /// The line of the document that it comes from.
    pub line: u32,
}

/// Pushes literals, so that the first of them is popped first.
pub fn push_literals(
    stack: &mut Vec<Pending>,
    depth: usize,
    literals: &[Literal],
) -> Result<(), AllocError>
    ensures { OnOk result (reverse stack.new.items ≡ pending_at depth literals.now (reverse stack.old.items)) }
{
    let mut at = literals.len();
    while 0 < at {
        at -= 1;
        let line = literals[at].line;
        stack.push(Pending { depth, line })?;
    }
    Ok(())
}
