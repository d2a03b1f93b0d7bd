ghost use Rattle.le_layout.specs.declared.layout.Layout.{Layout};
ghost use Rattle.le_layout.specs.Layout.{IsLayout};
ghost use Rattle.le_docs.specs.Headers.{heads_of};
ghost use Rattle.le_docs.specs.Rule.{AreSectionsOf, IsReported};
ghost use Rattle.le_docs.specs.Sections.{all_sections, sections_of};

/// Each line is governed by the last header at or before it: the tokens of a section are those that
/// its header governs. Each of them that ends nothing lies in exactly one sentence of the section, a
/// sentence holds no token that ends one, and it goes on to such a token or to the section's end. It
/// does nothing.
pub fn governed_lines()
    ensures { (layout : Layout) → IsLayout layout → AreSectionsOf layout (heads_of layout layout.lines) (all_sections layout) }
{}

/// A layout with no fault has its sections. Of all faults of another that one is reported which none
/// precedes, by its place and at one place by its number. It does nothing.
pub fn first_fault()
    ensures { (layout : Layout) → IsReported layout (sections_of layout) }
{}
