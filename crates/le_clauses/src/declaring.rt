ghost use Rattle.std.specs.Prelude.{◌≡◌, [], length, All};
ghost use Rattle.le_base.specs.Stop.{Gives};
ghost use Rattle.le_layout.specs.Layout.{IsLayout};
ghost use Rattle.le_docs.specs.Bounds.{IsSentenceOver, IsSectionOver};
ghost use Rattle.le_clauses.specs.Pieces.{declared_after, template_spans};

use le_base::Stop;
use le_docs::{Section, SectionKind};
use le_layout::{Layout, Span};
use le_templates::Templates;
use std::alloc::Global;

/// The templates that the sections of a document declare.
pub fn declared(alloc: Global, layout: &Layout, sections: &[Section]) -> Result<Templates, Stop>
    requires layout { IsLayout layout.now }
    requires sections { All (IsSectionOver (length layout.now.tokens)) sections.now }
    ensures exact { Gives (λ templates. templates) result (declared_after layout.now [] (template_spans sections.now)) }
{
    let mut templates = Templates::new(alloc)?;
    for section in sections {
        if section.kind.is(SectionKind::Templates) {
            declare_each(layout, &mut templates, section.sentences.as_slice())?;
        }
    }
    Ok(templates)
}

// Declares the template of each span.
fn declare_each(layout: &Layout, templates: &mut Templates, spans: &[Span]) -> Result<(), Stop>
    requires layout { IsLayout layout.now }
    requires spans { All (IsSentenceOver (length layout.now.tokens)) spans.now }
    ensures exact { Gives (λ done. templates.new) result (declared_after layout.now templates.old spans.now) }
{
    for span in spans {
        templates.declare(layout, *span)?;
    }
    Ok(())
}
