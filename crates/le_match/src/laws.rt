ghost use Rattle.std.specs.Prelude.{◌≡◌, ◌+◌, ◌<◌, ◌≤◌, ℕ, Bool, List, [], length, true, false};
ghost use Rattle.std.specs.List.{All, Contains};
ghost use Rattle.le_layout.specs.declared.token.Token.{Token};
ghost use Rattle.le_layout.specs.declared.layout.Layout.{Layout};
ghost use Rattle.le_templates.specs.declared.part.Part.{Part};
ghost use Rattle.le_templates.specs.Needs.{lacks};
ghost use Rattle.le_templates.specs.declared.part.Template.{Template};
ghost use Rattle.le_templates.specs.Skeletons.{skeleton};
ghost use Rattle.le_templates.specs.Table.{in_use};
ghost use Rattle.le_scope.specs.Lists.{Phrase, IsPhraseOf, spelled};
ghost use Rattle.le_scope.specs.Scopes.{ScopeState};
ghost use Rattle.le_match.specs.declared.readings.Reading.{Reading};
ghost use Rattle.le_match.specs.Lists.{tree_term};
ghost use Rattle.le_match.specs.Terms.{term_of};
ghost use Rattle.le_match.specs.Readings.{is_marked, ways, readings_of};
ghost use Rattle.le_match.specs.Sayable.{TermsAreRead, AtomsAreRead};
ghost use Rattle.le_match.specs.Order.{IsBefore, IsReadingBefore, InOrder};
ghost use Rattle.le_match.specs.Shares.{Fits, FitsMarked, IsRead, edge};

/// Each way to share the tokens of a sentence out among a template's words and slots fits them, and where
/// the sentence has no asterisk, each list of lengths that fits them is one of the ways. The ways stand in
/// dictionary order, and none comes twice. A sentence with an asterisk has at most one, and its ways are
/// exactly the lists of lengths by which each slot is a phrase between two asterisks. It does nothing.
pub fn every_way()
    ensures fit { (layout : Layout) (parts : List Part) (ts : List Token) → All (λ lengths. Fits layout (edge ts) parts ts lengths) (ways layout parts ts) }
    ensures whole { (layout : Layout) (parts : List Part) (ts : List Token) (lengths : List ℕ) → is_marked ts ≡ false → Fits layout 0 parts ts lengths → Contains (ways layout parts ts) lengths }
    ensures order { (layout : Layout) (parts : List Part) (ts : List Token) → InOrder IsBefore (ways layout parts ts) }
    ensures marked { (layout : Layout) (parts : List Part) (ts : List Token) → is_marked ts ≡ true → length (ways layout parts ts) ≤ 1 }
    ensures marked_fit { (layout : Layout) (parts : List Part) (ts : List Token) → is_marked ts ≡ true → All (λ lengths. FitsMarked layout parts ts lengths) (ways layout parts ts) }
    ensures marked_whole { (layout : Layout) (parts : List Part) (ts : List Token) (lengths : List ℕ) → is_marked ts ≡ true → FitsMarked layout parts ts lengths → Contains (ways layout parts ts) lengths }
{}

/// Each reading of a sentence is by a template in use whose words and slots are the sentence's tokens, and
/// where the sentence has no asterisk, each such reading is one of them. They are ordered by the number of
/// the template and then by the lengths in dictionary order, and none comes twice. It does nothing.
pub fn every_reading()
    ensures fit { (users : List Template) (layout : Layout) (ts : List Token) → All (IsRead users layout ts) (readings_of users layout ts) }
    ensures used { (users : List Template) (layout : Layout) (ts : List Token) → All (λ r. (r.pred < 20 + length users) × (in_use users r.pred ≡ true)) (readings_of users layout ts) }
    ensures whole { (users : List Template) (layout : Layout) (ts : List Token) (r : Reading) → is_marked ts ≡ false → r.pred < 20 + length users → in_use users r.pred ≡ true → IsRead users layout ts r → Contains (readings_of users layout ts) r }
    ensures order { (users : List Template) (layout : Layout) (ts : List Token) → InOrder IsReadingBefore (readings_of users layout ts) }
{}

/// A template that has a word outside slots that no token of a sentence is reads the sentence in no way.
/// It does nothing.
pub fn no_reading_without_a_word()
    ensures { (layout : Layout) (parts : List Part) (ts : List Token) → lacks layout ts parts ≡ true → ways layout parts ts ≡ [] }
{}

/// A marked sentence is read by templates of one skeleton alone, and in one way. Since the skeletons in use
/// differ, it has at most one reading. It does nothing.
pub fn one_marked_reading()
    ensures skeleton { (layout : Layout) (parts others : List Part) (ts : List Token) (lengths more : List ℕ) → FitsMarked layout parts ts lengths → FitsMarked layout others ts more → skeleton parts ≡ skeleton others }
    ensures lengths { (layout : Layout) (parts others : List Part) (ts : List Token) (lengths more : List ℕ) → FitsMarked layout parts ts lengths → FitsMarked layout others ts more → lengths ≡ more }
{}

/// The term of each phrase is that of its tree, found from left to right: `[]` is the empty list, `[p, q]` the
/// cell of p's term and of the cell of q's and the empty list, and `[p | r]` the cell of p's term and r's. It
/// does nothing.
pub fn every_term()
    ensures { (users : List Template) (names : List (List ℕ)) (scope : ScopeState) (query : Bool) (layout : Layout) (p : Phrase) → IsPhraseOf layout p → term_of users names scope query layout (spelled p) ≡ tree_term users names scope query layout p }
{}

/// What is read can be said. The term of a phrase has constants whose names quoted texts can hold, numbers and dates that
/// a term may have, and variables of the scope after it; the atom of a sentence is of a template in use, with such a term
/// for each slot. The names before are a beginning of those after. It does nothing.
pub fn read_can_be_said()
    ensures terms { TermsAreRead }
    ensures atoms { AtomsAreRead }
{}
