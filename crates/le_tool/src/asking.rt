ghost use Rattle.std.specs.Prelude.{◌≡◌, ◌<◌, length, map, string_bytes, IfSome};
ghost use Rattle.std.specs.Option.{option_map};
ghost use Rattle.le_tool.specs.Report.{question_of, question_by, query_name as query_name_of, word_at};

use crate::jobs::Task;

/// What is said of each answer.
#[derive(Clone, Copy, Debug, PartialEq, Eq)]
pub enum Detail {
    /// Its values.
    Values,
    /// Its values, and why it holds.
    Reasons,
    /// The text of its derivation.
    Derivations,
}

/// What is asked of a document.
#[derive(Clone, Copy)]
pub struct Asking<'a> {
    /// What is said of each answer.
    pub detail: Detail,
    /// The name of the query.
    pub query: &'a str,
    /// The name of the scenario, where there is one.
    pub scenario: Option<&'a str>,
    /// The most selections of the search.
    pub budget: u32,
    /// The most answers.
    pub most: u32,
}

/// What a task asks of a document, with the names among its words.
pub fn asking_of<'a>(words: &'a [String], detail: Detail, task: &Task) -> Asking<'a>
    requires query { IfSome task.now.query (λ place. place < length words.now) }
    requires scenario { IfSome task.now.scenario (λ place. place < length words.now) }
    ensures exact { question_by result ≡ question_of detail (map string_bytes words.now) task.now }
    ensures budget { result.budget ≡ task.now.budget }
{
    Asking {
        detail,
        query: query_name(words, task),
        scenario: scenario_name(words, task),
        budget: task.budget,
        most: task.answers,
    }
}

/// The name of the task's query, or the empty text where it has none.
fn query_name<'a>(words: &'a [String], task: &Task) -> &'a str
    requires { IfSome task.now.query (λ place. place < length words.now) }
    ensures { result.now ≡ query_name_of (map string_bytes words.now) task.now.query }
{
    match task.query {
        Some(place) => words[place].as_str(),
        None => "",
    }
}

/// The name of the task's scenario, where it has one.
fn scenario_name<'a>(words: &'a [String], task: &Task) -> Option<&'a str>
    requires { IfSome task.now.scenario (λ place. place < length words.now) }
    ensures { option_map (λ s. s.now) result ≡ option_map (word_at (map string_bytes words.now)) task.now.scenario }
{
    let place = task.scenario?;
    Some(words[place].as_str())
}
