ghost use Rattle.std.specs.Prelude.{◌≡◌, ◌+◌, ◌^◌, ◌<◌, ◌≤◌, length, slice_get, Some, IfOk};
ghost use Rattle.le_terms.specs.Program.{IsProgram};
ghost use Rattle.le_terms.specs.declared.program.Clause.{Clause as AnyClause};
ghost use Rattle.le_goals.specs.State.{AreFrames};
ghost use Rattle.le_goals.specs.Parting.{laid_at};
ghost use Rattle.le_goals.specs.Unifying.{UnifiesClause, body_of_clause};

use crate::finding::{atom_of, find, literals_in};
use crate::frames::{Frame, Part, Source};
use crate::unifying::unify_fresh;
use le_store::Store;
use le_terms::Program;
use std::alloc::{AllocError, Global};

// The first variable of a clause whose head was unified with the atom of a goal's literal; none where there is no unifier.
pub(crate) fn unify_clause(
    alloc: Global,
    program: &Program,
    store: &mut Store,
    frames: &[Frame],
    goal: usize,
    place: usize,
    clause: usize,
) -> Result<Option<usize>, AllocError>
    requires program { IsProgram program.now }
    requires frames { AreFrames program.now (length store.old.now.terms) 0 frames.now }
    requires there { goal < length frames.now }
    requires literal { place < length (laid_at program.now frames.now goal).literals }
    requires clause { clause < length program.now.clauses }
    requires few { length store.old.now.variables + 64 < 2 ^ 32 }
    ensures unified { IfOk result (λ answer. (one : AnyClause) → slice_get program.now.clauses clause ≡ Some one → UnifiesClause program.now store.old store.new frames.now goal place one answer) }
    ensures marks { store.new.marks ≡ store.old.marks }
    ensures more { length store.old.now.terms ≤ length store.new.now.terms }
{
    let Some(spot) = find(frames, goal, place) else {
        return Ok(None);
    };
    let literal = &literals_in(program, spot.part.source)[spot.part.from + spot.left];
    let atom = atom_of(&literal.form);
    let used = &program.clauses.as_slice()[clause];
    if used.head.pred != atom.pred {
        return Ok(None);
    }
    unify_fresh(
        alloc,
        store,
        used.vars as usize,
        used.head.args.as_slice(),
        spot.part.base,
        atom.args.as_slice(),
    )
}

// The body of a clause, whose variables are the cells from this one on.
pub(crate) fn body_part(program: &Program, clause: usize, base: usize) -> Part
    requires { clause < length program.now.clauses }
    ensures { (one : AnyClause) → slice_get program.now.clauses clause ≡ Some one → result ≡ body_of_clause clause base one }
{
    Part {
        source: Source::Body(clause),
        base,
        from: 0,
        to: program.clauses.as_slice()[clause].body.as_slice().len(),
        alone: false,
    }
}
