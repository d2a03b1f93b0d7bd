ghost use Rattle.le_proofs.specs.Laws.{TreeUnfolds, SelectsLeftmost, SearchesEnd, AnswersAdmitted, DoneIsWhole, AcceptsExactly, AnswersAccepted, AdmittedOnce, RefutationsAgree, TreesAgree, AdmittedAtLeaf, DoneHasAll, FewVariables};

/// The search tree of a goal is that of its selected literal, with the search trees of what becomes of the
/// goal below it. It does nothing.
pub fn tree_unfolds()
    ensures { TreeUnfolds }
{}

/// In version 1 the leftmost literal of a goal is selected. It does nothing.
pub fn selects_leftmost()
    ensures { SelectsLeftmost }
{}

/// A search ends with its budget spent only where no selection is left, and never with an answer. It does
/// nothing.
pub fn searches_end()
    ensures { SearchesEnd }
{}

/// Each answer of a search has a derivation that is admitted with the answer's values (Lloyd, Foundations of
/// Logic Programming, chapter 3, section 15, for refutations of a rank). It does nothing.
pub fn answers_admitted()
    ensures { AnswersAdmitted }
{}

/// Where a search is done, its answers are the leaves of a whole tree of the query, of some rank (Lloyd, the same section,
/// for finitely failed trees), so there are no others. It does nothing.
pub fn done_is_whole()
    ensures { DoneIsWhole }
{}

/// The replay of a derivation accepts it with values exactly where it is admitted with them: where there is
/// a refutation of the program's query whose substitution gives these values and whose nodes these are. It
/// does nothing.
pub fn accepted_exactly()
    ensures { AcceptsExactly }
{}

/// The replay accepts the derivation of each answer of a search with the answer's values. It does nothing.
pub fn answers_accepted()
    ensures { AnswersAccepted }
{}

/// A derivation is admitted with one list of values, whichever variants and most general unifiers are chosen.
/// It does nothing.
pub fn admitted_once()
    ensures { AdmittedOnce }
{}

/// Refutations of a program's query have the same values and the same nodes where their nodes are the same
/// but for their terms: the clauses that are used decide, and not the variants and most general unifiers that
/// are chosen. It does nothing.
pub fn refutations_agree()
    ensures { RefutationsAgree }
{}

/// All whole trees of a program's query have the same leaves in the same order, up to the names of variables
/// (Lloyd, Foundations of Logic Programming, chapter 3, section 15, for finitely failed trees). It does nothing.
pub fn trees_agree()
    ensures { TreesAgree }
{}

/// Where a program's query has a whole tree, each derivation that is admitted has the values of one of its
/// leaves. So a query with a failed tree has no refutation. It does nothing.
pub fn admitted_at_leaf()
    ensures { AdmittedAtLeaf }
{}

/// Where a search is done, each derivation that is admitted has the values of one of its answers. It does
/// nothing.
pub fn done_has_all()
    ensures { DoneHasAll }
{}

/// The variables of an answer's values and of its derivation are numbered by first occurrence, and there are
/// at most 64 for each selection of the budget and 64 for the query. It does nothing.
pub fn few_variables()
    ensures { FewVariables }
{}
