ghost use Rattle.std.specs.Prelude.{◌≡◌, ℕ, ◌+◌, ◌<◌, ◌++◌, ◌∷◌, [], List, length, map, true};
ghost use Rattle.le_layout.specs.declared.layout.Layout.{Layout};
ghost use Rattle.le_layout.specs.declared.token.Token.{Token};
ghost use Rattle.le_layout.specs.Spellings.{Spelling, spellings};
ghost use Rattle.le_layout.specs.Joined.{spelling_in};
ghost use Rattle.le_templates.specs.declared.part.Template.{Template};
ghost use Rattle.le_templates.specs.Table.{in_use};
ghost use Rattle.le_match.specs.Readings.{parts_at, best_of};
ghost use Rattle.le_match.specs.declared.readings.BestReading.TheVariants as best;
ghost use Rattle.le_scope.specs.Scopes.{ScopeState};
ghost use Rattle.le_terms.specs.Tree.{Tree};
ghost use Rattle.le_english.specs.Sentences.{sentence, Fills, has_slot, HasOneOfEach};
ghost use Rattle.le_english.specs.Saying.{HasWords, IsSayable, ReadsBack, sentence_text};
ghost use Rattle.le_match.specs.Sayable.{IsTermToSay};
ghost use Rattle.le_english.specs.Atoms.{IsAtomToSay, ReadsBackAlone, TermReadsBack};
ghost use Rattle.le_english.specs.Declarations.{IsDeclaredAfter, AreDeclared};
ghost use Rattle.le_terms.specs.Names.{HasNoRepeats};

/// A marked sentence of a template in use that has a slot has one reading: this template with these slots.
/// It does nothing.
pub fn one_reading()
    ensures { (users : List Template) (pred : ℕ) (phrases : List (List Spelling)) (layout : Layout) (ts : List Token) → HasOneOfEach users → pred < 20 + length users → in_use users pred ≡ true → has_slot (parts_at users pred) ≡ true → Fills (parts_at users pred) phrases → spellings layout ts ≡ map spelling_in (sentence true (parts_at users pred) phrases) → best_of users layout ts ≡ best.One (record { pred = pred; lengths = map length phrases }) }
{}

/// The sentence of a template in use with phrases that read as terms, one after another, has this template
/// with these slots as its single best reading, and reads as the atom of these terms. It does nothing.
pub fn reads_back()
    ensures { (users : List Template) (names : List (List ℕ)) (scope : ScopeState) (pred : ℕ) (phrases : List (List Spelling)) (trees : List Tree) (after : ScopeState) → IsSayable users names scope pred phrases trees after → ReadsBack users names scope pred phrases trees after (sentence_text users pred phrases) }
{}

/// The templates of a document, each declared after those before it, have words that a document can have,
/// and those of them that are in use have different skeletons. It does nothing.
pub fn declared_templates()
    ensures none { AreDeclared [] }
    ensures more { (users : List Template) (t : Template) → AreDeclared users → IsDeclaredAfter users t → AreDeclared (users ++ t ∷ []) }
    ensures each { (users : List Template) → AreDeclared users → HasOneOfEach users }
    ensures words { (users : List Template) (pred : ℕ) → AreDeclared users → pred < 20 + length users → HasWords (parts_at users pred) }
{}

/// The sentence of an atom of a template in use, whose names hold what a quoted text may hold, reads back as
/// this atom alone, its variables numbered by first occurrence: scanned, it has this template with the
/// phrases of the arguments as its single best reading, and in an empty scope for as many variables as the
/// atom has it reads as the atom, without a new name. It does nothing.
pub fn atom_reads_back()
    ensures { (users : List Template) (names : List (List ℕ)) (pred : ℕ) (trees : List Tree) → IsAtomToSay users names pred trees → ReadsBackAlone users names pred trees }
{}

/// The text of a term, whose names hold what a quoted text may hold, reads back as this term, its variables
/// numbered by first occurrence: scanned, it is a phrase, and in an empty scope for as many variables as
/// the term has it reads as the term, without a new name. It does nothing.
pub fn term_reads_back()
    ensures { (users : List Template) (names : List (List ℕ)) (tree : Tree) → HasNoRepeats names → IsTermToSay names tree → TermReadsBack users names tree }
{}
