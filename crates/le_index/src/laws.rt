ghost use Rattle.le_index.specs.Laws.{PassedClausesNeverUnify};

/// A clause that `candidate` passes over, asked for an atom's predicate and key, has a head that doesn't
/// unify with the atom, however the clause's variables are renamed. It does nothing.
pub fn passed_clauses_never_unify()
    ensures { PassedClausesNeverUnify }
{}
