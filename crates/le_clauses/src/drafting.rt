ghost use Rattle.std.specs.Prelude.{◌≡◌, ◌++◌, ◌∷◌, [], if◌then◌else◌, map, flat_map, reverse, IfOk, OnOk};
ghost use Rattle.le_terms.specs.Variables.{occurrences, all_occurrences};
ghost use Rattle.le_clauses.specs.Groups.{literals_of, literals_in, group_atom, group_clauses as group_clauses_of, branch_clause, body as body_of, literal as literal_of, one_body as one_body_of, sentence_form as sentence_form_of};
ghost use Rattle.le_terms.specs.declared.program.Form.TheVariants.{Neg};
ghost use Rattle.le_terms.specs.declared.program.GroupKind.TheVariants.{Case};
ghost use Rattle.le_clauses.specs.declared.draft.Body.{Body as BodyOf};
ghost use Rattle.le_clauses.specs.Walks.{nothing, first_done, rest_done, take_done, drop_done, left_by, head_by, done_by, alone_atom, with_mark, dones};
ghost use Rattle.le_clauses.specs.Makings.{made_by, branch_made, joint_made, or_made, not_made, gather_made, case_made};

use crate::draft::{Bodies, Body, Done, Draft, Made, Mark, Numbers};
use crate::marking::{begins_group, pred_inside};
use crate::occurrences::{Occurrences, add_term, atom_vars, group_head};
use crate::part::Part;
use le_base::{Copied, FoldKind};
use le_terms::{
    Atom, Clause, ClauseKind, Clauses, Form, GroupKind, Groups, Literal, Literals, Sym, Term, Terms,
};
use std::alloc::{AllocError, Global};

/// What marked parts are translated to, from the last to the first; the last one that stands there is
/// the first part's.
pub fn translated(
    alloc: Global,
    rule: &Occurrences,
    marks: Vec<Mark>,
) -> Result<Vec<Done>, AllocError>
    ensures { IfOk result (λ stack. reverse stack.items ≡ dones rule.now marks.items) }
{
    let mut rest = marks;
    let mut stack = Vec::new(alloc);
    while let Some(mark) = rest.pop() {
        let done = done(alloc, rule, &mark, &mut stack)?;
        stack.push(done)?;
    }
    Ok(stack)
}

// What a part is translated to, with those below it, which are taken off the stack.
fn done(
    alloc: Global,
    rule: &Occurrences,
    mark: &Mark,
    stack: &mut Vec<Done>,
) -> Result<Done, AllocError>
    ensures { IfOk result (λ d. d ∷ reverse stack.new.items ≡ with_mark rule.now mark.now (reverse stack.old.items)) }
{
    let begins = begins_group(alloc, rule, mark.mode, &mark.part)?;
    let pred = pred_inside(mark.pred, begins)?;
    let made = made(alloc, rule, mark.mode.is_some(), pred, &mark.part, stack)?;
    stood(alloc, rule, mark, begins, made)
}

// What a part is translated to as it stands, where this is made of it.
fn stood(
    alloc: Global,
    rule: &Occurrences,
    mark: &Mark,
    begins: bool,
    made: Made,
) -> Result<Done, AllocError>
    ensures { IfOk result (λ d. d ≡ done_by mark.now.mode begins (head_by rule.now mark.now.pred made.vars) mark.now.part made.line made.vars made.draft) }
{
    match mark.mode {
        None => member(alloc, made),
        Some(kind) => {
            if begins {
                group(alloc, rule, kind, mark.pred, made)
            } else {
                alone(alloc, &mark.part, made)
            }
        }
    }
}

// A member with its literals.
fn member(alloc: Global, made: Made) -> Result<Done, AllocError>
    ensures { IfOk result (λ d. d ≡ record { line = made.line; vars = made.vars; literals = literals_of made.draft; atom = group_atom 0 []; clauses = made.draft.clauses; kinds = made.draft.kinds }) }
{
    let line = made.line;
    let vars = made.vars;
    let draft = made.draft;
    Ok(Done {
        line,
        vars,
        literals: first_literals(alloc, draft.bodies)?,
        atom: no_atom(alloc),
        clauses: draft.clauses,
        kinds: draft.kinds,
    })
}

// An atom without a predicate of its own.
fn no_atom(alloc: Global) -> Atom
    ensures { result ≡ group_atom 0 [] }
{
    Atom {
        pred: 0,
        args: Terms::from_vec(Vec::new(alloc)),
    }
}

// The literals of the first body.
fn first_literals(alloc: Global, bodies: Bodies) -> Result<Literals, AllocError>
    ensures { IfOk result (λ literals. literals ≡ literals_in bodies) }
{
    match bodies.as_slice().first() {
        Some(body) => body.literals.copy(alloc),
        None => Ok(Literals::from_vec(Vec::new(alloc))),
    }
}

// The whole of a group, with its auxiliary predicate.
fn group(
    alloc: Global,
    rule: &Occurrences,
    kind: GroupKind,
    pred: u32,
    made: Made,
) -> Result<Done, AllocError>
    ensures { IfOk result (λ d. d ≡ record { line = made.line; vars = made.vars; literals = []; atom = head_by rule.now pred made.vars; clauses = group_clauses_of (head_by rule.now pred made.vars) made.draft ++ made.draft.clauses; kinds = kind ∷ made.draft.kinds }) }
{
    let line = made.line;
    let vars = made.vars;
    let draft = made.draft;
    let head = group_head(alloc, rule, pred, vars.as_slice())?;
    let clauses = group_clauses(alloc, &head, draft.bodies, draft.clauses)?;
    let kinds = with_kind(alloc, kind, draft.kinds)?;
    Ok(Done {
        line,
        vars,
        literals: Literals::from_vec(Vec::new(alloc)),
        atom: head,
        clauses,
        kinds,
    })
}

// The clauses of an auxiliary predicate, one for each body, and then those of the groups inside.
fn group_clauses(
    alloc: Global,
    head: &Atom,
    bodies: Bodies,
    inside: Clauses,
) -> Result<Clauses, AllocError>
    ensures { IfOk result (λ clauses. clauses ≡ map (branch_clause head.now) bodies ++ inside) }
{
    let mut clauses = branch_clauses(alloc, head, bodies.as_slice())?;
    let mut inside = inside.into_vec();
    clauses.append(&mut inside)?;
    Ok(Clauses::from_vec(clauses))
}

// The clauses of an auxiliary predicate, one for each body.
fn branch_clauses(alloc: Global, head: &Atom, bodies: &[Body]) -> Result<Vec<Clause>, AllocError>
    ensures { IfOk result (λ clauses. clauses.items ≡ map (branch_clause head.now) bodies.now) }
{
    let mut clauses = Vec::new(alloc);
    for body in bodies {
        clauses.push(Clause {
            head: head.copy(alloc)?,
            body: body.literals.copy(alloc)?,
            vars: 0,
            line: body.line,
            kind: ClauseKind::Branch,
        })?;
    }
    Ok(clauses)
}

// A kind before those of the groups inside.
fn with_kind(alloc: Global, kind: GroupKind, inside: Groups) -> Result<Groups, AllocError>
    ensures { IfOk result (λ kinds. kinds ≡ kind ∷ inside) }
{
    let mut kinds = Vec::new(alloc);
    kinds.push(kind)?;
    kinds.extend_from_slice(inside.as_slice())?;
    Ok(Groups::from_vec(kinds))
}

// A part whose own atom stands for its group.
fn alone(alloc: Global, part: &Part, made: Made) -> Result<Done, AllocError>
    ensures { IfOk result (λ d. d ≡ record { line = made.line; vars = made.vars; literals = []; atom = alone_atom part.now; clauses = []; kinds = [] }) }
{
    let atom = own_atom(alloc, part)?;
    Ok(Done {
        line: made.line,
        vars: made.vars,
        literals: Literals::from_vec(Vec::new(alloc)),
        atom,
        clauses: Clauses::from_vec(Vec::new(alloc)),
        kinds: Groups::from_vec(Vec::new(alloc)),
    })
}

// The atom of a sentence.
fn own_atom(alloc: Global, part: &Part) -> Result<Atom, AllocError>
    ensures { IfOk result (λ atom. atom ≡ alone_atom part.now) }
{
    match part {
        Part::Sentence { line: _, atom } => atom.copy(alloc),
        _ => Ok(no_atom(alloc)),
    }
}

// What is made of a part, with those below it, which are taken off the stack.
fn made(
    alloc: Global,
    rule: &Occurrences,
    whole: bool,
    pred: u32,
    part: &Part,
    stack: &mut Vec<Done>,
) -> Result<Made, AllocError>
    ensures made { IfOk result (λ m. m ≡ made_by rule.now whole pred part.now (reverse stack.old.items)) }
    ensures left { OnOk result (reverse stack.new.items ≡ left_by part.now (reverse stack.old.items)) }
{
    match part {
        Part::Sentence { line, atom } => sentence(alloc, *line, atom),
        Part::And(count) => conjunction(alloc, *count, stack),
        Part::Or(count) => disjunction(alloc, rule, whole, pred, *count, stack),
        Part::Not(line) => negation(alloc, *line, stack),
        Part::ForAll(line) => for_all(alloc, rule, pred, *line, stack),
        Part::Gather {
            line,
            fold,
            result: res,
            value,
        } => gather(alloc, *line, *fold, res, *value, stack),
    }
}

// A single body of one literal.
fn one_literal(alloc: Global, line: u32, form: Form) -> Result<Bodies, AllocError>
    ensures { IfOk result (λ bodies. bodies ≡ body_of line (literal_of line form ∷ []) ∷ []) }
{
    let mut literals = Vec::new(alloc);
    literals.push(Literal { line, form })?;
    one_body(alloc, line, Literals::from_vec(literals))
}

// A single body.
fn one_body(alloc: Global, line: u32, literals: Literals) -> Result<Bodies, AllocError>
    ensures { IfOk result (λ bodies. bodies ≡ body_of line literals ∷ []) }
{
    let mut bodies = Vec::new(alloc);
    bodies.push(Body { line, literals })?;
    Ok(Bodies::from_vec(bodies))
}

// What is made of a sentence.
fn sentence(alloc: Global, line: u32, atom: &Atom) -> Result<Made, AllocError>
    ensures { IfOk result (λ m. m ≡ record { line = line; vars = all_occurrences atom.now.args; draft = one_body_of line (literal_of line (sentence_form_of atom.now) ∷ []) [] [] }) }
{
    let vars = atom_vars(alloc, atom)?;
    let form = sentence_form(alloc, atom)?;
    Ok(Made {
        line,
        vars: Numbers::from_vec(vars),
        draft: Draft {
            bodies: one_literal(alloc, line, form)?,
            clauses: Clauses::from_vec(Vec::new(alloc)),
            kinds: Groups::from_vec(Vec::new(alloc)),
        },
    })
}

// What a literal says of the atom of a sentence.
fn sentence_form(alloc: Global, atom: &Atom) -> Result<Form, AllocError>
    ensures { IfOk result (λ form. form ≡ sentence_form_of atom.now) }
{
    let copy = atom.copy(alloc)?;
    if atom.pred < 18 {
        Ok(Form::Calc(copy))
    } else {
        Ok(Form::Pos(copy))
    }
}

/// The condition that stands last on the stack, taken off it.
pub fn pop_done(alloc: Global, stack: &mut Vec<Done>) -> Done
    ensures first { result ≡ first_done (reverse stack.old.items) }
    ensures rest { reverse stack.new.items ≡ rest_done (reverse stack.old.items) }
{
    match stack.pop() {
        Some(done) => done,
        None => nothing_done(alloc),
    }
}

// What stands for a condition that isn't there.
fn nothing_done(alloc: Global) -> Done
    ensures { result ≡ nothing }
{
    Done {
        line: 0,
        vars: Numbers::from_vec(Vec::new(alloc)),
        literals: Literals::from_vec(Vec::new(alloc)),
        atom: no_atom(alloc),
        clauses: Clauses::from_vec(Vec::new(alloc)),
        kinds: Groups::from_vec(Vec::new(alloc)),
    }
}

// What is made of a negation.
fn negation(alloc: Global, line: u32, stack: &mut Vec<Done>) -> Result<Made, AllocError>
    ensures made { IfOk result (λ m. m ≡ not_made line (first_done (reverse stack.old.items))) }
    ensures left { OnOk result (reverse stack.new.items ≡ rest_done (reverse stack.old.items)) }
{
    let inside = pop_done(alloc, stack);
    Ok(Made {
        line,
        vars: inside.vars,
        draft: Draft {
            bodies: one_literal(alloc, line, Form::Neg(inside.atom))?,
            clauses: inside.clauses,
            kinds: inside.kinds,
        },
    })
}

// What is made of a gather.
fn gather(
    alloc: Global,
    line: u32,
    fold: FoldKind,
    total: &Term,
    value: u32,
    stack: &mut Vec<Done>,
) -> Result<Made, AllocError>
    ensures made { IfOk result (λ m. m ≡ gather_made line fold total.now value (first_done (reverse stack.old.items))) }
    ensures left { OnOk result (reverse stack.new.items ≡ rest_done (reverse stack.old.items)) }
{
    let inside = pop_done(alloc, stack);
    let vars = gather_vars(alloc, total, value, inside.vars)?;
    let form = Form::Gather {
        fold,
        result: total.copy(alloc)?,
        value: Term::leaf(alloc, Sym::Var(value))?,
        atom: inside.atom,
    };
    Ok(Made {
        line,
        vars,
        draft: Draft {
            bodies: one_literal(alloc, line, form)?,
            clauses: inside.clauses,
            kinds: inside.kinds,
        },
    })
}

// The variables of a gather: those of its result, that of the value, and those inside.
fn gather_vars(
    alloc: Global,
    total: &Term,
    value: u32,
    inside: Numbers,
) -> Result<Numbers, AllocError>
    ensures { IfOk result (λ vars. vars ≡ occurrences total.now ++ value ∷ inside) }
{
    let mut vars = Vec::new(alloc);
    add_term(&mut vars, total)?;
    vars.push(value)?;
    vars.extend_from_slice(inside.as_slice())?;
    Ok(Numbers::from_vec(vars))
}

// What is made of a conjunction.
fn conjunction(alloc: Global, count: u32, stack: &mut Vec<Done>) -> Result<Made, AllocError>
    ensures made { IfOk result (λ m. m ≡ joint_made (take_done count (reverse stack.old.items))) }
    ensures left { OnOk result (reverse stack.new.items ≡ drop_done count (reverse stack.old.items)) }
{
    let taken = take_off(alloc, count, stack)?;
    joined(alloc, taken)
}

// What is made of a disjunction.
fn disjunction(
    alloc: Global,
    rule: &Occurrences,
    whole: bool,
    pred: u32,
    count: u32,
    stack: &mut Vec<Done>,
) -> Result<Made, AllocError>
    ensures made { IfOk result (λ m. m ≡ (if whole then branch_made (take_done count (reverse stack.old.items)) else or_made rule.now pred (branch_made (take_done count (reverse stack.old.items))))) }
    ensures left { OnOk result (reverse stack.new.items ≡ drop_done count (reverse stack.old.items)) }
{
    let taken = take_off(alloc, count, stack)?;
    let branches = branched(alloc, taken)?;
    if whole {
        Ok(branches)
    } else {
        or_group(alloc, rule, pred, branches)
    }
}

// So many conditions, taken off the stack.
fn take_off(alloc: Global, count: u32, stack: &mut Vec<Done>) -> Result<Vec<Done>, AllocError>
    ensures taken { IfOk result (λ taken. taken.items ≡ take_done count (reverse stack.old.items)) }
    ensures left { OnOk result (reverse stack.new.items ≡ drop_done count (reverse stack.old.items)) }
{
    let mut taken = Vec::new(alloc);
    for _ in 0..count {
        taken.push(pop_done(alloc, stack))?;
    }
    Ok(taken)
}

// The line of the first of some conditions.
fn first_line(taken: &[Done]) -> u32
    ensures { result ≡ (first_done taken.now).line }
{
    match taken.first() {
        Some(done) => done.line,
        None => 0,
    }
}

// The branches of a disjunction.
fn branched(alloc: Global, taken: Vec<Done>) -> Result<Made, AllocError>
    ensures { IfOk result (λ m. m ≡ branch_made taken.items) }
{
    let line = first_line(&taken);
    let mut vars = Vec::new(alloc);
    let mut bodies = Vec::new(alloc);
    let mut clauses = Vec::new(alloc);
    let mut kinds = Vec::new(alloc);
    let mut rest = taken;
    rest.reverse();
    while let Some(done) = rest.pop() {
        vars.extend_from_slice(done.vars.as_slice())?;
        bodies.push(Body {
            line: done.line,
            literals: done.literals,
        })?;
        let mut inside = done.clauses.into_vec();
        clauses.append(&mut inside)?;
        kinds.extend_from_slice(done.kinds.as_slice())?;
    }
    Ok(Made {
        line,
        vars: Numbers::from_vec(vars),
        draft: Draft {
            bodies: Bodies::from_vec(bodies),
            clauses: Clauses::from_vec(clauses),
            kinds: Groups::from_vec(kinds),
        },
    })
}

// The members of a conjunction as one body.
fn joined(alloc: Global, taken: Vec<Done>) -> Result<Made, AllocError>
    ensures { IfOk result (λ m. m ≡ joint_made taken.items) }
{
    let branches = branched(alloc, taken)?;
    let line = branches.line;
    let vars = branches.vars;
    let draft = branches.draft;
    let literals = joined_literals(alloc, draft.bodies.into_vec())?;
    Ok(Made {
        line,
        vars,
        draft: Draft {
            bodies: one_body(alloc, line, literals)?,
            clauses: draft.clauses,
            kinds: draft.kinds,
        },
    })
}

// The literals of some bodies, one after another.
fn joined_literals(alloc: Global, bodies: Vec<Body>) -> Result<Literals, AllocError>
    ensures { IfOk result (λ literals. literals ≡ flat_map (λ (b : BodyOf). b.literals) bodies.items) }
{
    let mut literals = Vec::new(alloc);
    let mut rest = bodies;
    rest.reverse();
    while let Some(body) = rest.pop() {
        let mut inside = body.literals.into_vec();
        literals.append(&mut inside)?;
    }
    Ok(Literals::from_vec(literals))
}

// A disjunction that isn't the whole of a group, by its branches.
fn or_group(
    alloc: Global,
    rule: &Occurrences,
    pred: u32,
    branches: Made,
) -> Result<Made, AllocError>
    ensures { IfOk result (λ m. m ≡ or_made rule.now pred branches) }
{
    let line = branches.line;
    let vars = branches.vars;
    let draft = branches.draft;
    let head = group_head(alloc, rule, pred, vars.as_slice())?;
    let clauses = group_clauses(alloc, &head, draft.bodies, draft.clauses)?;
    let kinds = with_kind(alloc, GroupKind::Or, draft.kinds)?;
    Ok(Made {
        line,
        vars,
        draft: Draft {
            bodies: one_literal(alloc, line, Form::Pos(head))?,
            clauses,
            kinds,
        },
    })
}

// What is made of a `for all`.
fn for_all(
    alloc: Global,
    rule: &Occurrences,
    pred: u32,
    line: u32,
    stack: &mut Vec<Done>,
) -> Result<Made, AllocError>
    ensures made { IfOk result (λ m. m ≡ case_made rule.now pred line (first_done (reverse stack.old.items)) (first_done (rest_done (reverse stack.old.items)))) }
    ensures left { OnOk result (reverse stack.new.items ≡ rest_done (rest_done (reverse stack.old.items))) }
{
    let first = pop_done(alloc, stack);
    let second = pop_done(alloc, stack);
    case_group(alloc, rule, pred, line, first, second)
}

// A `for all` with its two blocks.
fn case_group(
    alloc: Global,
    rule: &Occurrences,
    pred: u32,
    line: u32,
    first: Done,
    second: Done,
) -> Result<Made, AllocError>
    ensures { IfOk result (λ m. m ≡ case_made rule.now pred line first second) }
{
    let mut vars = first.vars.into_vec();
    vars.extend_from_slice(second.vars.as_slice())?;
    let head = group_head(alloc, rule, pred, &vars)?;
    let clause = case_clause(
        alloc,
        &head,
        first.line,
        first.literals,
        second.line,
        second.atom,
    )?;
    let kinds = case_kinds(alloc, first.kinds, second.kinds)?;
    Ok(Made {
        line,
        vars: Numbers::from_vec(vars),
        draft: Draft {
            bodies: one_literal(alloc, line, Form::Neg(head))?,
            clauses: three_clauses(alloc, clause, first.clauses, second.clauses)?,
            kinds,
        },
    })
}

// The clause of a `for all`: the literals of the first block, and the negative literal of the second.
fn case_clause(
    alloc: Global,
    head: &Atom,
    line: u32,
    literals: Literals,
    second: u32,
    atom: Atom,
) -> Result<Clause, AllocError>
    ensures { IfOk result (λ clause. clause ≡ branch_clause head.now (body_of line (literals ++ literal_of second (Neg atom) ∷ []))) }
{
    let mut literals = literals.into_vec();
    literals.push(Literal {
        line: second,
        form: Form::Neg(atom),
    })?;
    Ok(Clause {
        head: head.copy(alloc)?,
        body: Literals::from_vec(literals),
        vars: 0,
        line,
        kind: ClauseKind::Branch,
    })
}

// A clause, and those of two blocks.
fn three_clauses(
    alloc: Global,
    clause: Clause,
    first: Clauses,
    second: Clauses,
) -> Result<Clauses, AllocError>
    ensures { IfOk result (λ clauses. clauses ≡ clause ∷ (first ++ second)) }
{
    let mut clauses = Vec::new(alloc);
    clauses.push(clause)?;
    let mut first = first.into_vec();
    clauses.append(&mut first)?;
    let mut second = second.into_vec();
    clauses.append(&mut second)?;
    Ok(Clauses::from_vec(clauses))
}

// The kind of a `for all`, and those of its blocks.
fn case_kinds(alloc: Global, first: Groups, second: Groups) -> Result<Groups, AllocError>
    ensures { IfOk result (λ kinds. kinds ≡ Case ∷ (first ++ second)) }
{
    let mut kinds = Vec::new(alloc);
    kinds.push(GroupKind::Case)?;
    kinds.extend_from_slice(first.as_slice())?;
    kinds.extend_from_slice(second.as_slice())?;
    Ok(Groups::from_vec(kinds))
}
