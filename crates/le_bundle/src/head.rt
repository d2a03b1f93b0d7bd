ghost use Rattle.std.specs.Prelude.{◌≡◌, ◌++◌, IfOk, OnOk, decimal, option_map};
ghost use Rattle.le_bundle.specs.Head.{head_lines, scenario_line};

use itoa::Buffer;
use le_base::Text;
use std::alloc::{AllocError, Global};

/// The lines between the document of a bundle and its answers: the marker, and the names and limits of the search.
#[tactic(auto, unfolding(crate::specs::Head::head_lines))]
pub fn head_lines(
    alloc: Global,
    query: &str,
    scenario: Option<&str>,
    budget: u32,
    most: u32,
) -> Result<Text, AllocError>
    ensures { IfOk result (λ text. text ≡ head_lines query.now (option_map (λ s. s.now) scenario.entry) budget most) }
{
    let mut text = Text::of(alloc, "=== certificates ===\nquery ")?;
    text.push_str(query)?;
    text.push_str("\n")?;
    push_scenario(&mut text, scenario)?;
    text.push_str("budget ")?;
    text.push_str(Buffer::new().format(budget))?;
    text.push_str("\nanswers ")?;
    text.push_str(Buffer::new().format(most))?;
    text.push_str("\n")?;
    Ok(text)
}

/// Appends the line of a scenario's name, where there is one.
fn push_scenario(text: &mut Text, scenario: Option<&str>) -> Result<(), AllocError>
    ensures { OnOk result (text.new ≡ text.old ++ scenario_line (option_map (λ s. s.now) scenario.entry)) }
{
    match scenario {
        Some(name) => push_name(text, name),
        None => Ok(()),
    }
}

/// Appends the line of a scenario's name.
fn push_name(text: &mut Text, name: &str) -> Result<(), AllocError>
    ensures { OnOk result (text.new ≡ text.old ++ scenario_line (Some name.now)) }
{
    text.push_str("scenario ")?;
    text.push_str(name)?;
    text.push_str("\n")
}
