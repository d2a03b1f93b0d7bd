ghost use Rattle.std.specs.Prelude.{◌≡◌, ◌∷◌, false, map, reverse, IfOk};
ghost use Rattle.le_terms.specs.Variables.{all_occurrences};
ghost use Rattle.le_clauses.specs.Conditions.{condition_of};
ghost use Rattle.le_clauses.specs.Groups.{drafted, rule_vars, rule_draft, numbered as numbered_of};
ghost use Rattle.le_clauses.specs.Walks.{first_done};
ghost use Rattle.le_clauses.specs.Makings.{IsDone, written};
ghost use Rattle.le_clauses.specs.Shapes.{IsShape};
ghost use Rattle.le_clauses.specs.Pieces.{rule_clauses as rule_clauses_of};

use crate::draft::Done;
use crate::drafting::{pop_done, translated};
use crate::marking::marks;
use crate::numbering::{numbered, numbered_all};
use crate::occurrences::{atom_vars, rule_occurrences};
use crate::part::Part;
use le_terms::{Atom, Clause, ClauseKind, Clauses, Groups, Literals};
use std::alloc::{AllocError, Global};

/// What conditions are translated to, where these variables occur in the rule's head too and the next
/// group has this predicate.
pub fn translate(
    alloc: Global,
    pred: u32,
    head: &[u32],
    parts: Vec<Part>,
) -> Result<Done, AllocError>
    requires shape { IsShape parts.items }
    ensures { IfOk result (IsDone (drafted false pred (rule_vars head.now (condition_of parts.items)) (condition_of parts.items))) }
{
    let rule = rule_occurrences(alloc, head, &parts)?;
    let marks = marks(alloc, &rule, pred, parts)?;
    let stack = translated(alloc, &rule, marks)?;
    Ok(last_done(alloc, stack))
}

// The condition that stands last.
fn last_done(alloc: Global, stack: Vec<Done>) -> Done
    ensures { result ≡ first_done (reverse stack.items) }
{
    let mut stack = stack;
    pop_done(alloc, &mut stack)
}

/// The clauses of a rule and of its groups, and the kinds of these.
#[derive(Drop)]
pub struct RuleClauses {
    /// The clauses, the rule's own first.
    pub clauses: Clauses,
    /// The kinds of the groups.
    pub kinds: Groups,
}

/// The clauses of a rule with this head on a line, where the next group has this predicate.
pub fn rule_clauses(
    alloc: Global,
    pred: u32,
    line: u32,
    head: Atom,
    parts: Vec<Part>,
) -> Result<RuleClauses, AllocError>
    requires shape { IsShape parts.items }
    ensures clauses { IfOk result (λ rule. rule.clauses ≡ rule_clauses_of line head (rule_draft pred head (condition_of parts.items))) }
    ensures kinds { IfOk result (λ rule. rule.kinds ≡ (rule_draft pred head (condition_of parts.items)).kinds) }
{
    let vars = atom_vars(alloc, &head)?;
    let done = translate(alloc, pred, &vars, parts)?;
    let kinds = done.kinds;
    let clauses = with_written(alloc, line, head, done.literals, done.clauses)?;
    Ok(RuleClauses { clauses, kinds })
}

// The clauses of a rule with this head and this body, and those of its groups, with their variables numbered.
fn with_written(
    alloc: Global,
    line: u32,
    head: Atom,
    body: Literals,
    inside: Clauses,
) -> Result<Clauses, AllocError>
    ensures { IfOk result (λ clauses. clauses ≡ map numbered_of (written line head body ∷ inside)) }
{
    let written = Clause {
        head,
        body,
        vars: 0,
        line,
        kind: ClauseKind::Written,
    };
    let mut clauses = Vec::new(alloc);
    clauses.push(numbered(alloc, &written)?)?;
    let mut rest = numbered_all(alloc, inside.as_slice())?;
    clauses.append(&mut rest)?;
    Ok(Clauses::from_vec(clauses))
}
