ghost use Rattle.std.specs.Prelude.{◌≡◌, ℕ, ◌+◌, false, nat_lt, List, All, IfOk};
ghost use Rattle.le_base.specs.Stop.{Gives};
ghost use Rattle.le_layout.specs.Layout.{IsLayout};
ghost use Rattle.le_layout.specs.Words.{IsSomeSpan};
ghost use Rattle.le_conds.specs.Bounds.{IsCondIn};
ghost use Rattle.le_clauses.specs.Rules.{body_nodes, parts_of};
ghost use Rattle.le_clauses.specs.Shapes.{AreNodesIn, NodesFit, IsShape};
ghost use Rattle.le_clauses.specs.Pieces.{next_pred as next_pred_of, within_limit, rule_translated, clauses_of_rule};

use crate::conclusions::conclusion;
use crate::part::Part;
use crate::reading::parts;
use crate::translate::rule_clauses;
use le_base::{Code, MOST_CLAUSES, MOST_VARIABLES, Stop};
use le_conds::{Cond, Conds, split_rule};
use le_layout::{Layout, Span, Token};
use le_scope::Scope;
use le_templates::Templates;
use le_terms::{Atom, Clause, Clauses, GroupKind, Groups, Names};
use std::alloc::{AllocError, Global};

/// The clauses of a rule or a fact, whose variables are introduced in a new scope. So many clauses and
/// these groups stand before them.
pub fn rule(
    alloc: Global,
    layout: &Layout,
    templates: &Templates,
    names: &mut Names,
    count: &mut u32,
    groups: &mut Vec<GroupKind>,
    sentence: Span,
) -> Result<Vec<Clause>, Stop>
    requires layout { IsLayout layout.now }
    requires sentence { IsSomeSpan layout.now sentence }
    ensures exact { Gives (λ clauses. record { value = clauses.items; names = names.new; count = count.new; groups = groups.new.items }) result (clauses_of_rule templates.now names.old count.old groups.old.items layout.now sentence) }
{
    let (first, conds) = split_rule(alloc, layout, sentence)?;
    let mut scope = Scope::with_limit(alloc, MOST_VARIABLES);
    let head = conclusion(alloc, layout, templates, names, &mut scope, first)?;
    let parts = body_parts(alloc, layout, templates, names, &mut scope, conds)?;
    let begin = layout.token(sentence.from);
    read_rule(alloc, templates, count, groups, begin, head, parts)
}

// The parts of a rule's conditions; a fact has none.
fn body_parts(
    alloc: Global,
    layout: &Layout,
    templates: &Templates,
    names: &mut Names,
    scope: &mut Scope,
    conds: Option<Conds>,
) -> Result<Vec<Part>, Stop>
    requires layout { IsLayout layout.now }
    requires conds { AreNodesIn layout.now conds }
    ensures exact { Gives (λ parts. record { value = parts.items; names = names.new; scope = scope.new }) result (parts_of templates.now names.old scope.old false layout.now (body_nodes conds)) }
    ensures shape { IfOk result (λ parts. IsShape parts.items) }
{
    match conds {
        None => Ok(Vec::new(alloc)),
        Some(conds) => tree_parts(
            alloc,
            layout,
            templates,
            names,
            scope,
            false,
            conds.nodes.as_slice(),
        ),
    }
}

/// The parts of conditions that are those of one tree.
pub fn tree_parts(
    alloc: Global,
    layout: &Layout,
    templates: &Templates,
    names: &mut Names,
    scope: &mut Scope,
    query: bool,
    nodes: &[Cond],
) -> Result<Vec<Part>, Stop>
    requires layout { IsLayout layout.now }
    requires nodes { All (IsCondIn layout.now) nodes.now }
    requires fit { NodesFit 1 nodes.now }
    ensures exact { Gives (λ parts. record { value = parts.items; names = names.new; scope = scope.new }) result (parts_of templates.now names.old scope.old query layout.now nodes.now) }
    ensures shape { IfOk result (λ parts. IsShape parts.items) }
{
    parts(alloc, layout, templates, names, scope, query, nodes)
}

// The clauses of a rule that was read. Its sentence begins at this token.
fn read_rule(
    alloc: Global,
    templates: &Templates,
    count: &mut u32,
    groups: &mut Vec<GroupKind>,
    begin: Token,
    head: Atom,
    parts: Vec<Part>,
) -> Result<Vec<Clause>, Stop>
    requires shape { IsShape parts.items }
    ensures exact { (names : List (List ℕ)) → Gives (λ clauses. record { value = clauses.items; names = names; count = count.new; groups = groups.new.items }) result (rule_translated templates.now count.old groups.old.items begin head names parts.items) }
{
    let pred = next_pred(templates, groups)?;
    let rule = rule_clauses(alloc, pred, begin.line, head, parts)?;
    counted_rule(alloc, count, groups, begin, rule.clauses, rule.kinds)
}

/// The predicate of the next group. There can't be 2^31, since a document has fewer tokens.
pub fn next_pred(templates: &Templates, groups: &[GroupKind]) -> Result<u32, AllocError>
    ensures { IfOk result (λ n. n ≡ next_pred_of templates.now groups.now) }
{
    let users = templates.users();
    if users >= 1 << 30 || groups.len() >= 1 << 30 {
        return Err(AllocError);
    }
    Ok(20 + users + groups.len() as u32)
}

// The clauses of a rule, which are counted, unless there are too many.
fn counted_rule(
    alloc: Global,
    count: &mut u32,
    groups: &mut Vec<GroupKind>,
    begin: Token,
    clauses: Clauses,
    kinds: Groups,
) -> Result<Vec<Clause>, Stop>
    ensures exact { (names : List (List ℕ)) → Gives (λ cs. record { value = cs.items; names = names; count = count.new; groups = groups.new.items }) result (within_limit count.old groups.old.items begin names clauses kinds clauses) }
{
    let clauses = clauses.into_vec();
    if is_over(*count, clauses.len()) {
        return Err(begin.refused(alloc, Code::TooMany));
    }
    groups.extend_from_slice(kinds.as_slice())?;
    *count += clauses.len() as u32;
    Ok(clauses)
}

/// Whether there are more than 50,000 clauses where so many more stand after so many.
pub fn is_over(count: u32, more: usize) -> bool
    ensures { result ≡ nat_lt 50000 (count + more) }
{
    more > MOST_CLAUSES as usize || count > MOST_CLAUSES - more as u32
}
