ghost use Rattle.std.specs.Prelude.{◌≡◌, ◌≤◌, ◌+◌, length, IfOk};
ghost use Rattle.le_terms.specs.Program.{IsProgram};
ghost use Rattle.le_proofs.specs.Replay.{verdict_of, steps_of, refused};
ghost use Rattle.le_check.specs.Verdicts.{verdict_by};

use crate::comparing::compare;
use crate::cutting::cut_fault;
use crate::parts::part_ends;
use crate::replaying::{Fault, Replay, replayed};
use crate::verdict::Verdict;
use le_proofs::Derivation;
use le_subst::Steps;
use le_terms::Program;
use std::alloc::{AllocError, Global};
use std::sync::ledger::Ledger;

/// The verdict on a derivation of a program's query: accepted with the values of what is asked for, where it is one
/// that Lloyd's definition of a refutation admits, else refused at the first node that doesn't fit, with the reason.
///
/// A derivation may have at most 60,000,000 nodes, which is more than a bundle within its limit of bytes holds. `steps`
/// rises by one for each unification that is tried: at most one for each node, and one for each clause of its predicate
/// at each split. `Err` comes only where memory is out.
pub fn check<L: Ledger>(
    alloc: Global,
    program: &Program,
    derivation: &Derivation,
    steps: &mut Steps<L>,
) -> Result<Verdict, AllocError>
    requires program { IsProgram program.now }
    requires few { length derivation.now.nodes ≤ 60000000 }
    ensures exact { IfOk result (λ verdict. verdict_by verdict ≡ verdict_of program.now derivation.now.nodes) }
    ensures steps { steps.new ≤ steps.old + steps_of program.now derivation.now.nodes }
{
    let nodes = derivation.nodes.as_slice();
    if let Some(fault) = cut_fault(alloc, program, nodes)? {
        return Ok(refused(fault));
    }
    let ends = part_ends(alloc, nodes)?;
    match replayed(alloc, program, nodes, &ends, steps)? {
        Replay::Stopped(fault) => Ok(refused(fault)),
        Replay::Through(proven) => compare(alloc, program, nodes, &ends, proven),
    }
}

// The verdict by a fault.
fn refused(fault: Fault) -> Verdict
    ensures { verdict_by result ≡ refused fault.node fault.why }
{
    Verdict::Refused {
        node: fault.node,
        why: fault.why,
    }
}
