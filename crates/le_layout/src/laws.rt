ghost use Rattle.std.specs.Prelude.{◌≡◌, ℕ, List, [], map, All, Some, ℤ, Ok, Err, IsUtf8, chars};
ghost use Rattle.le_base.specs.declared.stop.Refusal.{Refusal};
ghost use Rattle.le_layout.specs.declared.layout.Layout.{Layout};
ghost use Rattle.le_layout.specs.Pieces.{Piece, Cuts, pieces_of, chars_of};
ghost use Rattle.le_layout.specs.Lines.{lines_of, text_of_lines, AreLines};
ghost use Rattle.le_layout.specs.Faults.{IsLeastFault};
ghost use Rattle.le_layout.specs.Layout.{faults_of, layout_of, IsTokenIn};
ghost use Rattle.le_values.specs.Numbers.{number_of};
ghost use Rattle.le_values.specs.Days.{day_of};
ghost use Rattle.le_layout.specs.Written.{IsWordText};
ghost use Rattle.le_layout.specs.Spellings.{spellings};
ghost use Rattle.le_layout.specs.Joined.{Item, spelling_in, joined, AllWritten};

/// A line has one cut into words that can't be made longer, quoted texts, comments, its end and other
/// single characters, and the pieces of a line are that cut. It does nothing.
pub fn one_cut()
    ensures is_cut { (line : List ℕ) → Cuts line (pieces_of line) }
    ensures one { (line : List ℕ) (a b : List Piece) → Cuts line a → Cuts line b → a ≡ b }
    ensures whole { (line : List ℕ) → chars_of (pieces_of line) ≡ line }
{}

/// A text has one list of lines: one after another they are the text, and each but the last ends with
/// LF, which is its only one. `lines_of` is that list. It does nothing.
pub fn whole_lines()
    ensures whole { (text : List ℕ) → text_of_lines (lines_of text) ≡ text }
    ensures are_lines { (text : List ℕ) → AreLines (lines_of text) }
    ensures one { (lines : List (List ℕ)) → AreLines lines → lines_of (text_of_lines lines) ≡ lines }
{}

/// Of all faults of a text the one that it is refused with is one that none precedes: by line, then by
/// column, then by number. A text that is accepted has none. It does nothing.
pub fn least_fault()
    ensures least { (bytes : List ℕ) (refusal : Refusal) → IsUtf8 bytes → layout_of bytes ≡ Err refusal → IsLeastFault (faults_of (chars bytes)) refusal }
    ensures none { (bytes : List ℕ) (layout : Layout) → IsUtf8 bytes → layout_of bytes ≡ Ok layout → faults_of (chars bytes) ≡ [] }
{}

/// The tokens of every layout lie in its text, have the texts that their kinds may have, and stand at the
/// places that the text before them leads to. It does nothing.
pub fn written_tokens()
    ensures { (bytes : List ℕ) (layout : Layout) → layout_of bytes ≡ Ok layout → All (IsTokenIn layout.text) layout.tokens }
{}

/// The text of joined items, each of which a document can have, is scanned as exactly these items. It
/// does nothing.
pub fn scans_back()
    ensures { (items : List Item) → AllWritten items → (layout : Layout) × (layout_of (joined items) ≡ Ok layout) × (spellings layout layout.tokens ≡ map spelling_in items) }
{}

/// What is a number or a date is a word that a document can have. It does nothing.
pub fn values_are_words()
    ensures number { (text : List ℕ) (n : ℤ) → number_of text ≡ Some n → IsWordText text }
    ensures date { (text : List ℕ) (day : ℤ) → day_of text ≡ Some day → IsWordText text }
{}
