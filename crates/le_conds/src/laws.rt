ghost use Rattle.std.specs.Prelude.{◌≡◌, ◌<◌, ◌≤◌, ℕ, List, [], ◌∷◌, None, IfSome, true, flat_map};
ghost use Rattle.le_layout.specs.declared.layout.Layout.{Layout};
ghost use Rattle.le_layout.specs.Words.{tokens_of};
ghost use Rattle.le_conds.specs.declared.item.Item.{Item};
ghost use Rattle.le_conds.specs.declared.entry.Entry.{Entry};
ghost use Rattle.le_layout.specs.declared.fault.Fault.{Fault};
ghost use Rattle.le_conds.specs.Items.{span, items_of, begins_item, BeginsAt};
ghost use Rattle.le_conds.specs.Entries.{entries_of};
ghost use Rattle.le_conds.specs.Trees.{Tree};
ghost use Rattle.le_conds.specs.Members.{tree_of};
ghost use Rattle.le_layout.specs.Fault.{IsLeast};
ghost use Rattle.le_conds.specs.Faults.{shape_faults, least_of};
ghost use Rattle.le_conds.specs.Blocks.{IsBlock, AreMatched};

/// The items' contents with their connectives, one after another, are the tokens of the conditions, and an
/// item begins at each line that begins with `and`, `or` or a marker.
pub fn nothing_lost()
    ensures whole { (layout : Layout) (from to : ℕ) → from ≤ to → flat_map (λ item. tokens_of layout (span item.at item.content.to)) (items_of layout from to) ≡ tokens_of layout (span from to) }
    ensures cut { (layout : Layout) (from to k : ℕ) → from ≤ k → k < to → begins_item layout to k ≡ true → BeginsAt k (items_of layout from to) }
{}

/// Items have a tree by the rules exactly where nothing is wrong with how they stand, and it is the tree
/// that is found; each marker is that of the last `for all` before it that has none yet.
pub fn one_tree()
    ensures found { (es : List Entry) (t : Tree) → IsBlock None es t → (tree_of es ≡ t) × (shape_faults es ≡ []) }
    ensures rules { (e : Entry) (es : List Entry) → AreMatched [] (e ∷ es) → shape_faults (e ∷ es) ≡ [] → IsBlock None (e ∷ es) (tree_of (e ∷ es)) }
    ensures matched { (layout : Layout) (place : ℕ) (items : List Item) → AreMatched [] (entries_of layout place items) }
{}

/// Of some faults one decides unless there is none, and it is one that none of them precedes by place, and
/// at one place by number.
pub fn least_decides()
    ensures none { (fs : List Fault) → least_of fs ≡ None → fs ≡ [] }
    ensures least { (fs : List Fault) → IfSome (least_of fs) (λ f. IsLeast fs f) }
{}
