ghost use Rattle.std.specs.Prelude.{◌≡◌, ℤ, Some, None, [], ◌<◌, ◌≤◌, ◌++◌, ◌∷◌, ℕ, true, List, length, take, slice_index_or};
ghost use Rattle.le_scope.specs.Lists.{Phrase, IsPhraseOf, is_list, spelled, rows_of, no_lengths, is_open, IsListAt, IsListOf};
ghost use Rattle.le_scope.specs.Parts.{parts_of_list, parts_of_phrase, term_count};
ghost use Rattle.le_layout.specs.declared.token.Token.{Token};
ghost use Rattle.le_layout.specs.declared.layout.Layout.{Layout};
ghost use Rattle.le_layout.specs.Words.{text_of, is_word, tokens_of};
ghost use Rattle.le_layout.specs.declared.span.Span.{Span};
ghost use Rattle.le_values.specs.Numbers.{number_of};
ghost use Rattle.le_values.specs.Days.{day_of};
ghost use Rattle.le_scope.specs.declared.phrase.PhraseForm.TheVariants.{Number, Day, List as ListForm};
ghost use Rattle.le_scope.specs.Phrases.{is_phrase, phrase_form};
ghost use Rattle.le_scope.specs.Lengths.{phrase_lengths, is_length};

/// The first tokens of some tokens are a phrase exactly where their number is one of the lengths at the
/// first of them, which are all numbers from a least, which
/// isn't 0, to a greatest, which is no more than the tokens. It does nothing.
pub fn phrases_in_a_row()
    ensures row { (layout : Layout) (ts : List Token) (n : ℕ) → n ≤ length ts → is_phrase layout (take n ts) ≡ is_length (phrase_lengths layout ts) n }
    ensures some { (layout : Layout) (ts : List Token) → 0 < (phrase_lengths layout ts).least }
    ensures within { (layout : Layout) (ts : List Token) → (phrase_lengths layout ts).most ≤ length ts }
{}

/// At each token at most one length is that of a list, whatever follows it. It does nothing.
pub fn one_list()
    ensures { (layout : Layout) (p q : Phrase) (rest after : List Token) → IsPhraseOf layout p → is_list p ≡ true → IsPhraseOf layout q → is_list q ≡ true → spelled p ++ rest ≡ spelled q ++ after → length (spelled p) ≡ length (spelled q) }
{}

/// The walk over the tokens from the last to the first finds each list at its first token. It does nothing.
pub fn lists_found()
    ensures { (layout : Layout) (p : Phrase) (rest : List Token) → IsPhraseOf layout p → is_list p ≡ true → (slice_index_or (rows_of layout (spelled p ++ rest)) 0 no_lengths).phrase ≡ length (spelled p) }
{}

/// What the walk finds at an opening bracket is a list that stands there. It does nothing.
pub fn found_lists()
    ensures { (layout : Layout) (t : Token) (ts : List Token) → is_open t.kind ≡ true → 0 < (slice_index_or (rows_of layout (t ∷ ts)) 0 no_lengths).phrase → IsListAt layout (t ∷ ts) (slice_index_or (rows_of layout (t ∷ ts)) 0 no_lengths).phrase }
{}

/// Tokens have the form of a list exactly where they have a tree that is a list. It does nothing.
pub fn lists_are_phrases()
    ensures tree { (layout : Layout) (ts : List Token) → phrase_form layout ts ≡ Some ListForm → IsListOf layout ts }
    ensures form { (layout : Layout) (p : Phrase) → IsPhraseOf layout p → is_list p ≡ true → phrase_form layout (spelled p) ≡ Some ListForm }
{}

/// The symbols of a list's term are those of its tree. It does nothing.
pub fn parts_of_lists()
    ensures { (layout : Layout) (tokens : Span) (p : Phrase) → IsPhraseOf layout p → is_list p ≡ true → tokens_of layout tokens ≡ spelled p → parts_of_list layout tokens ≡ parts_of_phrase tokens.from p }
{}

/// The symbols of a list's term are exactly one term, each phrase without brackets counted as one. It does
/// nothing.
pub fn parts_are_one_term()
    ensures { (layout : Layout) (tokens : Span) → phrase_form layout (tokens_of layout tokens) ≡ Some ListForm → term_count (parts_of_list layout tokens) ≡ Some 1 }
{}

/// One word that is a number is a phrase of that form, and so is one that is a date and no number. It does nothing.
pub fn numbers_and_dates()
    ensures number { (layout : Layout) (t : Token) (n : ℤ) → is_word t.kind ≡ true → number_of (text_of layout t) ≡ Some n → phrase_form layout (t ∷ []) ≡ Some (Number n) }
    ensures day { (layout : Layout) (t : Token) (day : ℤ) → is_word t.kind ≡ true → number_of (text_of layout t) ≡ None → day_of (text_of layout t) ≡ Some day → phrase_form layout (t ∷ []) ≡ Some (Day day) }
{}
