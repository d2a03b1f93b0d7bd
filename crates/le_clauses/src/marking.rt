ghost use Rattle.std.specs.Prelude.{◌≡◌, ◌+◌, ◌++◌, None, [], ◌∷◌, reverse, IfOk, OnOk};
ghost use Rattle.std.specs.Prelude.{Some};
ghost use Rattle.le_terms.specs.declared.program.GroupKind.TheVariants.{Not};
ghost use Rattle.le_clauses.specs.Walks.{below, members, begins_group as begins_group_at, one_if, is_whole, own_groups as own_groups_of, marked};

use crate::draft::Mark;
use crate::occurrences::{Occurrences, is_alone};
use crate::part::Part;
use le_terms::GroupKind;
use std::alloc::{AllocError, Global};

/// The marks of parts, the first of which is a member, where the next group has this predicate.
pub fn marks(
    alloc: Global,
    rule: &Occurrences,
    pred: u32,
    parts: Vec<Part>,
) -> Result<Vec<Mark>, AllocError>
    ensures { IfOk result (λ marks. marks.items ≡ marked rule.now (None ∷ []) pred parts.items) }
{
    let mut rest = parts;
    rest.reverse();
    let mut modes = Vec::new(alloc);
    modes.push(None)?;
    let mut marks = Vec::new(alloc);
    let mut next = pred;
    while let Some(part) = rest.pop() {
        let Some(mode) = modes.pop() else {
            return Ok(marks);
        };
        let after = next_pred(alloc, rule, mode, &part, next)?;
        push_below(&mut modes, &part)?;
        marks.push(Mark {
            part,
            mode,
            pred: next,
        })?;
        next = after;
    }
    Ok(marks)
}

// The predicate of the next group after a part. There can't be 2^31 predicates, since a document has
// fewer tokens.
fn next_pred(
    alloc: Global,
    rule: &Occurrences,
    mode: Option<GroupKind>,
    part: &Part,
    pred: u32,
) -> Result<u32, AllocError>
    ensures { IfOk result (λ n. n ≡ pred + one_if (begins_group_at rule.now mode part.now) + own_groups_of (is_whole mode) part.now) }
{
    let inside = pred_inside(pred, begins_group(alloc, rule, mode, part)?)?;
    pred_inside(inside, own_group(mode.is_some(), part))
}

/// The predicate of the next group inside, where this one begins a group. There can't be 2^31
/// predicates, since a document has fewer tokens.
pub fn pred_inside(pred: u32, begins: bool) -> Result<u32, AllocError>
    ensures { IfOk result (λ n. n ≡ pred + one_if begins) }
{
    if pred >= 1 << 31 {
        return Err(AllocError);
    }
    if begins { Ok(pred + 1) } else { Ok(pred) }
}

/// Whether a part that stands so is the whole of a group with a predicate.
pub fn begins_group(
    alloc: Global,
    rule: &Occurrences,
    mode: Option<GroupKind>,
    part: &Part,
) -> Result<bool, AllocError>
    ensures { IfOk result (λ b. b ≡ begins_group_at rule.now mode part.now) }
{
    match mode {
        None => Ok(false),
        Some(_) => Ok(!is_alone(alloc, rule, part)?),
    }
}

// Whether a part is one further group.
fn own_group(whole: bool, part: &Part) -> bool
    ensures { one_if result ≡ own_groups_of whole part.now }
{
    match part {
        Part::ForAll(_) => true,
        Part::Or(_) => !whole,
        _ => false,
    }
}

// Puts how the conditions below a part stand onto the modes, the last of which is the next.
fn push_below(modes: &mut Vec<Option<GroupKind>>, part: &Part) -> Result<(), AllocError>
    ensures { OnOk result (reverse modes.new.items ≡ below part.now ++ reverse modes.old.items) }
{
    match part {
        Part::Sentence { line: _, atom: _ } => Ok(()),
        Part::And(count) => push_members(modes, *count),
        Part::Or(count) => push_members(modes, *count),
        Part::Not(_) => push_one(modes, GroupKind::Not),
        Part::ForAll(_) => push_two(modes),
        Part::Gather {
            line: _,
            fold: _,
            result: _,
            value: _,
        } => push_one(modes, GroupKind::Value),
    }
}

// Puts the whole of a group onto the modes.
fn push_one(modes: &mut Vec<Option<GroupKind>>, kind: GroupKind) -> Result<(), AllocError>
    ensures { OnOk result (reverse modes.new.items ≡ Some kind ∷ reverse modes.old.items) }
{
    modes.push(Some(kind))?;
    Ok(())
}

// Puts how the blocks of a `for all` stand onto the modes.
fn push_two(modes: &mut Vec<Option<GroupKind>>) -> Result<(), AllocError>
    ensures { OnOk result (reverse modes.new.items ≡ None ∷ Some Not ∷ reverse modes.old.items) }
{
    modes.push(Some(GroupKind::Not))?;
    modes.push(None)?;
    Ok(())
}

// Puts so many members onto the modes.
fn push_members(modes: &mut Vec<Option<GroupKind>>, count: u32) -> Result<(), AllocError>
    ensures { OnOk result (reverse modes.new.items ≡ members count ++ reverse modes.old.items) }
{
    for _ in 0..count {
        modes.push(None)?;
    }
    Ok(())
}
