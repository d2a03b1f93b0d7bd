ghost use Rattle.std.specs.Prelude.{◌≡◌, ◌≤◌, ℕ, Bool, List, ◌∷◌, map};
ghost use Rattle.le_terms.specs.Tree.{Tree};
ghost use Rattle.le_terms.specs.Variables.{all_occurrences};
ghost use Rattle.le_terms.specs.declared.program.Atom.{Atom};
ghost use Rattle.le_docs.specs.declared.doc.Section.{Section};
ghost use Rattle.le_scope.specs.Scopes.{ScopeState};
ghost use Rattle.le_clauses.specs.Conditions.{Condition};
ghost use Rattle.le_clauses.specs.Documents.{DocumentsAreValid};
ghost use Rattle.le_clauses.specs.Groups.{numbered, rule_vars, rule_draft, written_clause};
ghost use Rattle.le_clauses.specs.Pieces.{query_draft, query_vars, query_by};
ghost use Rattle.le_clauses.specs.Saying.{ProgramsCanBeSaid};
ghost use Rattle.le_clauses.specs.Truth.{is_true, is_body_true, meant, of_templates, by_place, by_number, IsPlain};

/// The clauses of a rule, and the literals of a query with the clauses of its groups, are true exactly where the
/// conditions are: over any values of which there is one at least, in any set of atoms and under any assignment. It
/// does nothing.
pub fn truth_kept()
    ensures rules { (first : Tree) (others : List Tree) (set : Atom → Bool) (base pred line : ℕ) (head : Atom) (c : Condition) (by : ℕ → Tree) → IsPlain base c → base ≤ pred → is_body_true (meant (first ∷ others) (of_templates base set) (map numbered (rule_draft pred head c).clauses)) (by_number (written_clause line head (rule_draft pred head c)) by) (numbered (written_clause line head (rule_draft pred head c))).body ≡ is_true (first ∷ others) set (rule_vars (all_occurrences head.args) c) c by }
    ensures queries { (first : Tree) (others : List Tree) (set : Atom → Bool) (base pred : ℕ) (section : Section) (scope : ScopeState) (c : Condition) (by : ℕ → Tree) → IsPlain base c → base ≤ pred → let draft = query_draft pred scope.asked c in is_body_true (meant (first ∷ others) (of_templates base set) (query_by section draft scope).clauses) (by_place (query_vars draft scope.asked) by) (query_by section draft scope).query ≡ is_true (first ∷ others) set (rule_vars scope.asked c) c by }
{}

/// Every program that is selected from a document can be said: its constants have names that quoted texts can hold, its
/// numbers and dates are those that a term may have, and its atoms, but for those of groups, are of templates in use, with
/// a term for each slot. It does nothing.
pub fn programs_can_be_said()
    ensures { ProgramsCanBeSaid }
{}

/// The whole of a document whose sections are accepted is valid: no two scenarios have one name and no two
/// queries, each query asks something, and each constant has a name. It does nothing.
pub fn documents_are_valid()
    ensures { DocumentsAreValid }
{}
