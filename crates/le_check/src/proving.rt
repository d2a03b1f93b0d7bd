ghost use Rattle.std.specs.Prelude.{◌≡◌, ◌≤◌, ◌<◌, ◌+◌, ◌^◌, ℕ, suc, true, false, [], ◌∷◌, ◌++◌, List, take, drop, length, IfOk, IfSome, IsNone, None, Some};
ghost use Rattle.le_terms.specs.Program.{IsProgram, IsClause};
ghost use Rattle.le_terms.specs.declared.program.Literal.{Literal as AnyLiteral};
ghost use Rattle.le_terms.specs.declared.program.Program.{Program as AnyProgram};
ghost use Rattle.le_proofs.specs.declared.node.Node.{Node as AnyNode};
ghost use Rattle.le_proofs.specs.Proofs.{Reason, value_computed, cases_gathered, step_to};
ghost use Rattle.le_proofs.specs.declared.node.Node.TheVariants.{Use};
ghost use Rattle.le_proofs.specs.Goals.{child_by, resolvent_by};
ghost use Rattle.le_terms.specs.declared.program.Atom.{Atom as AnyAtom};
ghost use Rattle.le_proofs.specs.Search.{Outcome as AnyOutcome, goes_on, computing};
ghost use Rattle.le_proofs.specs.Replay.{Replayed, Proven as AnyProven, Meeting as AnyMeeting, nodes_at, of_negation, of_gather, clause_at, use_one, use_clause, computed_on, prove, proofs_within, tree_within, put_places as put_places_of};
ghost use Rattle.le_derivations.specs.Paths.{Shows, count_of};
ghost use Rattle.le_check.specs.Goals.{goal_of, placed, IsOutcome, CanCompute};
ghost use Rattle.le_check.specs.Meetings.{meeting_of};
ghost use Rattle.le_check.specs.Parts.{ArePartEnds, nodes_from};
ghost use Rattle.le_check.specs.Left.{Means, Opened, ProofGives, ProofOnward, ProofPast, ProofDone, proof_below};
ghost use Rattle.le_check.specs.declared.levels.Turn.TheVariants.{Prove};
ghost use Rattle.le_check.specs.declared.levels.Frame.{Frame as AnyFrame};

use crate::counting::{can_compute, computed_counted, unify_counted};
use crate::goal::Outcome;
use crate::levels::{AbsentFrame, Frame, GatherFrame, Grown, Opening, Proof, Turn, Walk, stopped};
use crate::meeting::{Meeting, meet};
use crate::parts::beginnings;
use crate::resolving::{resolvent, rest, rest_under, sub_goal};
use crate::selecting::select;
use le_base::{Copied, FoldKind};
use le_derivations::PathStep;
use le_literals::{is_covered, is_ground_atom};
use le_proofs::{Node, Nodes};
use le_subst::{Steps, Subst};
use le_terms::{Atom, Clause, Program, Term};
use std::alloc::{AllocError, Global};
use std::sync::ledger::Ledger;

// The number of a goal's next variable is at most this one: each node on the way to the goal added at most 64.
pub(crate) const MOST_VARIABLES: u32 = 4_000_000_000;

// Places with others in the place of one.
pub(crate) fn put_places(
    places: Vec<usize>,
    place: usize,
    new: Vec<usize>,
) -> Result<Vec<usize>, AllocError>
    ensures { IfOk result (λ all. all.items ≡ take place places.items ++ (new.items ++ drop (suc place) places.items)) }
{
    let mut all = places;
    let mut others = new;
    if place >= all.len() {
        all.append(&mut others)?;
        return Ok(all);
    }
    let mut behind = all.split_off(place)?;
    behind.remove(0);
    all.append(&mut others)?;
    all.append(&mut behind)?;
    Ok(all)
}

// The clause of a number, counted from 1.
pub(crate) fn clause_of(program: &Program, number: u32) -> Option<&Clause>
    requires { IsProgram program.now }
    ensures some { IfSome result (λ clause. (clause_at program.now number ≡ Some clause.now) × IsClause clause.now) }
    ensures none { IsNone result → clause_at program.now number ≡ None }
{
    if number == 0 {
        return None;
    }
    program.clauses.as_slice().get(number as usize - 1)
}

// A proof goes on past the literal at a place, under a unifier, where this node and those below it prove the literal.
fn past(
    alloc: Global,
    proof: Proof,
    place: usize,
    unifier: Subst,
    node: Node,
    below: Vec<Node>,
) -> Result<Turn, AllocError>
    requires inside { place < length proof.goal.literals.items }
    ensures { IfOk result (λ turn. (program : AnyProgram) (nodes : List AnyNode) (frames : List AnyFrame) (order : List ℕ) (whole : Replayed AnyProven) (number : ℕ) (reason : Reason) → Shows reason node below.items → count_of node ≡ 0 → ProofPast program nodes (ProofDone program nodes frames) proof place number reason order (goes_on unifier) whole → Means program nodes frames order turn whole) }
{
    let goal = rest_under(alloc, &proof.goal, place, &unifier)?;
    let mut path = proof.path;
    path.push(PathStep {
        place,
        unifier,
        node,
        below: Nodes::from_vec(below),
    })?;
    Ok(Turn::Prove(Proof {
        fuel: proof.fuel,
        goal,
        places: proof.places,
        path,
    }))
}

// A proof goes on past the literal at a place, by what becomes of it.
pub(crate) fn past_by(
    alloc: Global,
    proof: Proof,
    place: usize,
    number: u32,
    outcome: Outcome,
    node: Node,
    below: Vec<Node>,
) -> Result<Turn, AllocError>
    requires inside { place < length proof.goal.literals.items }
    ensures { IfOk result (λ turn. (program : AnyProgram) (nodes : List AnyNode) (frames : List AnyFrame) (order : List ℕ) (whole : Replayed AnyProven) (reason : Reason) (said : AnyOutcome) → IsOutcome outcome said → Shows reason node below.items → count_of node ≡ 0 → ProofPast program nodes (ProofDone program nodes frames) proof place number reason order said whole → Means program nodes frames order turn whole) }
{
    match outcome {
        Outcome::GoesOn(unifier) => past(alloc, proof, place, unifier, node, below),
        Outcome::Fails => Ok(stopped(number, 7)),
        Outcome::Ends => Ok(stopped(number, 7)),
    }
}

// A proof goes on by a clause, whose head unifies with the atom at a place, and whose body's proofs begin from a place
// on.
fn used(
    alloc: Global,
    proof: Proof,
    place: usize,
    below: Vec<usize>,
    it: &Clause,
    node: Node,
    unifier: Subst,
) -> Result<Turn, AllocError>
    requires clause { IsClause it.now }
    requires fits { proof.goal.next + 64 < 2 ^ 32 }
    requires inside { place < length proof.goal.literals.items }
    ensures { IfOk result (λ turn. (program : AnyProgram) (nodes : List AnyNode) (frames : List AnyFrame) (order : List ℕ) (whole : Replayed AnyProven) (literal : AnyLiteral) (atom : AnyAtom) (clause count : ℕ) → node ≡ Use clause count atom → count ≡ length it.now.body → ProofOnward program nodes (ProofDone program nodes frames) proof.path.items (step_to place atom (child_by (goal_of proof.goal) (placed proof.goal.literals.items place literal) clause it.now unifier)) order (proof_below program nodes proof.fuel (resolvent_by (goal_of proof.goal) (placed proof.goal.literals.items place literal) it.now unifier) (put_places_of place (nodes_from nodes below.items) (nodes_from nodes proof.places.items))) whole → Means program nodes frames order turn whole) }
{
    let goal = resolvent(alloc, &proof.goal, place, it, &unifier)?;
    let places = put_places(proof.places, place, below)?;
    let mut path = proof.path;
    path.push(PathStep {
        place,
        unifier,
        node,
        below: Nodes::from_vec(Vec::new(alloc)),
    })?;
    Ok(Turn::Prove(Proof {
        fuel: proof.fuel,
        goal,
        places,
        path,
    }))
}

// The proof of an atom at a place by a clause of this number, of whose body it says that it has so many literals.
fn by_clause<L: Ledger>(
    alloc: Global,
    program: &Program,
    nodes: &[Node],
    ends: &[usize],
    steps: &mut Steps<L>,
    allowed: &mut usize,
    proof: Proof,
    place: usize,
    number: u32,
    at: usize,
    claim: (Atom, u32, u32),
) -> Result<Turn, AllocError>
    requires program { IsProgram program.now }
    requires ends { ArePartEnds nodes.now ends.now }
    requires at { at ≤ length nodes.now }
    requires inside { place < length proof.goal.literals.items }
    ensures means { IfOk result (λ turn. (frames : List AnyFrame) (order : List ℕ) (whole : Replayed AnyProven) (literal : AnyLiteral) → ProofGives program.now nodes.now frames proof.path.items order (use_one program.now (length nodes.now) (proofs_within program.now (length nodes.now) proof.fuel) (tree_within program.now (length nodes.now) proof.fuel) (goal_of proof.goal) (nodes_from nodes.now proof.places.items) (placed proof.goal.literals.items place literal) claim.0 number claim.1 claim.2 (drop at nodes.now) (clause_at program.now claim.1)) whole → Means program.now nodes.now frames (order ++ number ∷ []) turn whole) }
    ensures steps { steps.new + allowed.new ≤ steps.old + allowed.old }
{
    let (atom, clause, count) = claim;
    let Some(it) = clause_of(program, clause) else {
        return Ok(stopped(number, 1));
    };
    if count as usize != it.body.as_slice().len() {
        return Ok(stopped(number, 3));
    }
    if proof.goal.next > MOST_VARIABLES {
        return Err(AllocError);
    }
    let Some(unifier) = unify_counted(alloc, proof.goal.next, it, &atom, steps, allowed)? else {
        return Ok(stopped(number, 2));
    };
    let below = beginnings(alloc, nodes, ends, count as usize, at)?;
    let node = Node::Use {
        clause,
        count,
        atom,
    };
    used(alloc, proof, place, below, it, node, unifier)
}

// The proof of a computed literal at a place.
fn by_computing<L: Ledger>(
    alloc: Global,
    steps: &mut Steps<L>,
    allowed: &mut usize,
    proof: Proof,
    place: usize,
    number: u32,
    atom: Atom,
) -> Result<Turn, AllocError>
    requires inside { place < length proof.goal.literals.items }
    ensures means { IfOk result (λ turn. (program : AnyProgram) (nodes : List AnyNode) (frames : List AnyFrame) (order : List ℕ) (whole : Replayed AnyProven) (line : ℕ) → ProofPast program nodes (ProofDone program nodes frames) proof place number (value_computed atom) order (computing line atom) whole → Means program nodes frames order turn whole) }
    ensures steps { steps.new + allowed.new ≤ steps.old + allowed.old }
{
    if !can_compute(&atom) {
        return Err(AllocError);
    }
    let outcome = computed_counted(alloc, &atom, steps, allowed)?;
    let node = Node::Compute { atom };
    past_by(alloc, proof, place, number, outcome, node, Vec::new(alloc))
}

// Nothing of a tree.
pub(crate) fn nothing_grown(alloc: Global) -> Grown
    ensures nodes { result.nodes.items ≡ [] }
    ensures found { result.found.items ≡ [] }
{
    Grown {
        nodes: Vec::new(alloc),
        found: Vec::new(alloc),
    }
}

// A proof without the place of one of its literals.
fn skip_place(alloc: Global, proof: Proof, place: usize) -> Result<Proof, AllocError>
    ensures fuel { IfOk result (λ new. new.fuel ≡ proof.fuel) }
    ensures goal { IfOk result (λ new. new.goal ≡ proof.goal) }
    ensures path { IfOk result (λ new. new.path ≡ proof.path) }
    ensures places { IfOk result (λ new. (nodes : List AnyNode) → nodes_from nodes new.places.items ≡ put_places_of place [] (nodes_from nodes proof.places.items)) }
{
    let places = put_places(proof.places, place, Vec::new(alloc))?;
    Ok(Proof {
        fuel: proof.fuel,
        goal: proof.goal,
        places,
        path: proof.path,
    })
}

// The proof of a negation at a place, whose tree is walked from another place on.
fn by_failure(
    alloc: Global,
    proof: Proof,
    place: usize,
    number: u32,
    at: usize,
    line: u32,
    atom: Atom,
) -> Result<Opening, AllocError>
    requires inside { place < length proof.goal.literals.items }
    ensures { IfOk result (λ opening. (program : AnyProgram) (nodes : List AnyNode) (frames : List AnyFrame) (order : List ℕ) (whole : Replayed AnyProven) (literal : AnyLiteral) → ProofGives program nodes frames proof.path.items order (prove program (length nodes) (proofs_within program (length nodes) proof.fuel) (tree_within program (length nodes) proof.fuel) (goal_of proof.goal) (nodes_from nodes proof.places.items) (placed proof.goal.literals.items place literal) line number (drop at nodes) (of_negation atom)) whole → Opened program nodes frames (order ++ number ∷ []) opening whole) }
{
    if !is_ground_atom(&atom) {
        return Ok(Opening::Goes(stopped(number, 4)));
    }
    let sub = sub_goal(alloc, proof.goal.next, line, &atom, Vec::new(alloc))?;
    let walk = Walk {
        fuel: proof.fuel,
        failed: true,
        goal: sub,
    };
    let skipped = skip_place(alloc, proof, place)?;
    let behind = Proof {
        fuel: skipped.fuel,
        goal: rest(skipped.goal, place),
        places: skipped.places,
        path: skipped.path,
    };
    let frame = Frame::Absent(AbsentFrame {
        proof: behind,
        place,
        atom,
    });
    Ok(Opening::Opens(frame, Turn::Walk(walk, at, nothing_grown(alloc))))
}

// The terms that the answers of a gather's own search are asked for.
pub(crate) fn value_asked(alloc: Global, value: &Term) -> Result<Vec<Term>, AllocError>
    ensures { IfOk result (λ terms. terms.items ≡ value.now ∷ []) }
{
    let mut terms = Vec::with_capacity(alloc, 1)?;
    terms.push(value.copy(alloc)?)?;
    Ok(terms)
}

// The proof of a gather at a place, whose tree is walked from another place on.
fn by_gathering(
    alloc: Global,
    proof: Proof,
    place: usize,
    number: u32,
    at: usize,
    line: u32,
    fold: FoldKind,
    target: Term,
    value: Term,
    atom: Atom,
) -> Result<Opening, AllocError>
    requires inside { place < length proof.goal.literals.items }
    ensures { IfOk result (λ opening. (program : AnyProgram) (nodes : List AnyNode) (frames : List AnyFrame) (order : List ℕ) (whole : Replayed AnyProven) (literal : AnyLiteral) → ProofGives program nodes frames proof.path.items order (prove program (length nodes) (proofs_within program (length nodes) proof.fuel) (tree_within program (length nodes) proof.fuel) (goal_of proof.goal) (nodes_from nodes proof.places.items) (placed proof.goal.literals.items place literal) line number (drop at nodes) (of_gather fold target value atom)) whole → Opened program nodes frames (order ++ number ∷ []) opening whole) }
{
    if !is_covered(&value, &atom) {
        return Ok(Opening::Goes(stopped(number, 4)));
    }
    let asked = value_asked(alloc, &value)?;
    let sub = sub_goal(alloc, proof.goal.next, line, &atom, asked)?;
    let skipped = skip_place(alloc, proof, place)?;
    let walk = Walk {
        fuel: skipped.fuel,
        failed: false,
        goal: sub,
    };
    let frame = Frame::Gather(GatherFrame {
        proof: skipped,
        place,
        number,
        fold,
        result: target,
        value,
        atom,
    });
    Ok(Opening::Opens(frame, Turn::Walk(walk, at, nothing_grown(alloc))))
}

// The proof of the literal at a place, by the node that claims it, where what stands below the node begins at another
// place.
fn by_meeting<L: Ledger>(
    alloc: Global,
    program: &Program,
    nodes: &[Node],
    ends: &[usize],
    steps: &mut Steps<L>,
    allowed: &mut usize,
    proof: Proof,
    place: usize,
    number: u32,
    at: usize,
    line: u32,
    meeting: Meeting,
) -> Result<Opening, AllocError>
    requires program { IsProgram program.now }
    requires ends { ArePartEnds nodes.now ends.now }
    requires at { at ≤ length nodes.now }
    requires inside { place < length proof.goal.literals.items }
    ensures means { IfOk result (λ opening. (frames : List AnyFrame) (order : List ℕ) (whole : Replayed AnyProven) (literal : AnyLiteral) → ProofGives program.now nodes.now frames proof.path.items order (prove program.now (length nodes.now) (proofs_within program.now (length nodes.now) proof.fuel) (tree_within program.now (length nodes.now) proof.fuel) (goal_of proof.goal) (nodes_from nodes.now proof.places.items) (placed proof.goal.literals.items place literal) line number (drop at nodes.now) (meeting_of meeting)) whole → Opened program.now nodes.now frames (order ++ number ∷ []) opening whole) }
    ensures steps { steps.new + allowed.new ≤ steps.old + allowed.old }
{
    match meeting {
        Meeting::ByClause(atom, clause, count) => {
            let claim = (atom, clause, count);
            Ok(Opening::Goes(by_clause(
                alloc, program, nodes, ends, steps, allowed, proof, place, number, at, claim,
            )?))
        }
        Meeting::ByComputing(atom) => {
            let behind = skip_place(alloc, proof, place)?;
            Ok(Opening::Goes(by_computing(alloc, steps, allowed, behind, place, number, atom)?))
        }
        Meeting::ByFailure(atom) => by_failure(alloc, proof, place, number, at, line, atom),
        Meeting::ByGathering(fold, target, value, atom) => by_gathering(
            alloc, proof, place, number, at, line, fold, target, value, atom,
        ),
        Meeting::Unfit => Ok(Opening::Goes(stopped(number, 3))),
    }
}

// The next literal of a proof is proved.
pub(crate) fn prove_next<L: Ledger>(
    alloc: Global,
    program: &Program,
    nodes: &[Node],
    ends: &[usize],
    order: &mut Vec<u32>,
    steps: &mut Steps<L>,
    allowed: &mut usize,
    proof: Proof,
) -> Result<Opening, AllocError>
    requires program { IsProgram program.now }
    requires few { length nodes.now ≤ 60000000 }
    requires ends { ArePartEnds nodes.now ends.now }
    ensures means { IfOk result (λ opening. (frames : List AnyFrame) (whole : Replayed AnyProven) → Means program.now nodes.now frames order.old.items (Prove proof) whole → Opened program.now nodes.now frames order.new.items opening whole) }
    ensures steps { steps.new + allowed.new ≤ steps.old + allowed.old }
{
    let last = nodes.len() as u32 + 1;
    if proof.fuel == 0 {
        return Ok(Opening::Goes(stopped(last, 9)));
    }
    let Some(place) = select(program.version, &proof.goal.literals) else {
        return Ok(Opening::Goes(Turn::Through(proof.path, proof.goal.terms)));
    };
    let at = place_at(nodes, &proof.places, place);
    if at >= nodes.len() {
        return Ok(Opening::Goes(stopped(last, 9)));
    }
    let number = at as u32 + 1;
    order.push(number)?;
    let literal = &proof.goal.literals[place];
    let line = literal.line;
    let meeting = meet(alloc, &literal.form, &nodes[at])?;
    let below = Proof {
        fuel: proof.fuel - 1,
        goal: proof.goal,
        places: proof.places,
        path: proof.path,
    };
    let opening = by_meeting(
        alloc,
        program,
        nodes,
        ends,
        steps,
        allowed,
        below,
        place,
        number,
        at + 1,
        line,
        meeting,
    )?;
    Ok(opening)
}

// Where the proof of a literal begins, or the end of the nodes.
fn place_at(nodes: &[Node], places: &[usize], place: usize) -> usize
    ensures { drop result nodes.now ≡ nodes_at place (nodes_from nodes.now places.now) }
{
    if place < places.len() {
        return places[place];
    }
    nodes.len()
}
