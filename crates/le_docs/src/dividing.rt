ghost use Rattle.std.specs.Prelude.{◌≡◌, ◌≤◌, [], length, drop, All, IfOk};
ghost use Rattle.le_base.specs.Stop.{Gives};
ghost use Rattle.le_layout.specs.Layout.{IsLayout};
ghost use Rattle.le_docs.specs.Faults.{least_from};
ghost use Rattle.le_docs.specs.Bounds.{IsHeadOver, IsSectionOver};
ghost use Rattle.le_docs.specs.Sections.{next_at as next_at_of, sections_under, faults_under, names_faults, sections_of};

use crate::cutting::section;
use crate::doc::{Doc, Section, SectionKind, Sections};
use crate::faults::sooner;
use crate::headers::{Head, find_headers};
use le_base::{Code, Stop};
use le_layout::{Fault, Layout};
use std::alloc::{AllocError, Global};
use std::collections::BTreeSet;

/// The sections of a layout, in order.
///
/// A refusal is `UnknownHeader` for a first line that is no header, a line with a colon that ends no
/// header, a target that isn't `prolog` and a full stop, or a query's second sentence; `NoStop` for a
/// sentence that isn't ended or a query without one; `SameName` for a scenario or a query with the name
/// of an earlier one. The least place decides, and at one place the least number. `Memory` is out of
/// memory.
pub fn sections(alloc: Global, layout: &Layout) -> Result<Doc, Stop>
    requires layout { IsLayout layout.now }
    ensures exact { Gives (λ doc. doc) result (sections_of layout.now) }
    ensures within { IfOk result (λ doc. All (IsSectionOver (length layout.now.tokens)) doc.sections) }
{
    let found = find_headers(alloc, layout)?;
    let divided = divide(alloc, layout, found.heads.as_slice(), found.least)?;
    let sections = divided.sections.as_slice();
    let least = with_name_faults(
        alloc,
        layout,
        SectionKind::Scenario,
        sections,
        divided.least,
    )?;
    let least = with_name_faults(alloc, layout, SectionKind::Query, sections, least)?;
    match least {
        None => Ok(Doc {
            sections: Sections::from_vec(divided.sections),
        }),
        Some(fault) => Err(Stop::Refused(fault.refusal(alloc, layout))),
    }
}

/// Sections, and the fault that decides.
#[derive(Drop)]
struct Divided {
    sections: Vec<Section>,
    least: Option<Fault>,
}

/// The sections of headers, and the fault that decides among their faults and one that was found
/// before.
fn divide(
    alloc: Global,
    layout: &Layout,
    heads: &[Head],
    least: Option<Fault>,
) -> Result<Divided, AllocError>
    requires layout { IsLayout layout.now }
    requires heads { All (IsHeadOver (length layout.now.tokens)) heads.now }
    ensures sections { IfOk result (λ divided. divided.sections.items ≡ sections_under layout.now heads.now) }
    ensures within { IfOk result (λ divided. All (IsSectionOver (length layout.now.tokens)) divided.sections.items) }
    ensures least { IfOk result (λ divided. divided.least ≡ least_from least (faults_under layout.now heads.now)) }
{
    let mut sections = Vec::new(alloc);
    let mut least = least;
    for k in 0..heads.len() {
        let to = next_at(layout, heads, k + 1);
        let checked = section(alloc, layout, heads[k], to, least)?;
        least = checked.least;
        sections.push(checked.section)?;
    }
    Ok(Divided { sections, least })
}

/// The first token of a header, or the number of tokens where there is no header.
fn next_at(layout: &Layout, heads: &[Head], k: usize) -> u32
    requires layout { IsLayout layout.now }
    requires heads { All (IsHeadOver (length layout.now.tokens)) heads.now }
    requires inside { k ≤ length heads.now }
    ensures exact { result ≡ next_at_of layout.now (drop k heads.now) }
    ensures within { result ≤ length layout.now.tokens }
{
    if k < heads.len() {
        return heads[k].at;
    }
    layout.tokens.as_slice().len() as u32
}

/// The fault that decides among one that was found before and those of sections of this kind whose
/// name an earlier one has.
fn with_name_faults(
    alloc: Global,
    layout: &Layout,
    kind: SectionKind,
    sections: &[Section],
    least: Option<Fault>,
) -> Result<Option<Fault>, AllocError>
    ensures { IfOk result (λ found. found ≡ least_from least (names_faults layout.now kind [] sections.now)) }
{
    let mut names = BTreeSet::new(alloc);
    let mut least = least;
    for section in sections {
        if !section.kind.is(kind) {
            continue;
        }
        let name = String::from_str(alloc, section.name.as_str())?;
        if !names.insert(name)? {
            least = sooner(least, Fault::at(Code::SameName, section.at));
        }
    }
    Ok(least)
}
