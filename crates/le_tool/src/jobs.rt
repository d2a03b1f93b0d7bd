ghost use Rattle.std.specs.Prelude.{◌≡◌, ℕ, ◌+◌, ◌<◌, ◌≤◌, length, map, string_bytes, take, drop, IfSome};
ghost use Rattle.le_tool.specs.Job.{no_options, with_option, options_from, search_task as search_task_of, search_command as search_command_of, single_command as single_command_of, lone_command as lone_command_of, job_of, AreOptions};

use le_bundle::count_up_to;

/// What the command line asks for.
#[derive(Clone, Copy, Debug, PartialEq, Eq)]
pub enum Command {
    /// The answers of a query, with their values.
    Answer,
    /// The answers of a query, with their values and explanations.
    Explain,
    /// A document with the derivations of the answers of a query.
    Certify,
    /// The clauses of a document.
    Clauses,
    /// The check of a bundle: a document with derivations of the answers of a query.
    Check,
}

/// The most answers that are shown, where the words don't say.
pub const ANSWERS: u32 = 100;

/// The most answers that the words may ask for.
pub const MOST_ANSWERS: u32 = 1000;

/// The most selections of a search, where the words don't say, and the most that they may ask for.
pub const BUDGET: u32 = 100_000;

/// A command with its options.
#[derive(Clone, Copy, Debug, PartialEq, Eq)]
pub struct Task {
    /// The command.
    pub command: Command,
    /// The place of the query's name among the words, where the command has one.
    pub query: Option<usize>,
    /// The place of the scenario's name among the words, where one is asked for.
    pub scenario: Option<usize>,
    /// The most selections of the search.
    pub budget: u32,
    /// The most answers that are shown.
    pub answers: u32,
}

/// The options of a command so far: the places of names, and numbers.
#[derive(Clone, Copy, Debug)]
struct Options {
    query: Option<usize>,
    scenario: Option<usize>,
    budget: Option<u32>,
    answers: Option<u32>,
}

/// The task that the words ask for, without the program's name, and None exactly where the command
/// line isn't valid. It is valid where it is `clauses` or `check` alone, or `answer`, `explain` or `certify` and then
/// pairs of an option and its value in any order, each option at most once. `--query NAME` has to be there, with any word
/// as the name; `--scenario NAME`, `--budget N` with N from 1 to 100,000 (100,000 where it isn't there)
/// and `--answers K` with K from 1 to 1,000 (100 where it isn't there) may be. Numbers are ASCII digits
/// without a sign or a leading zero.
pub fn job(words: &[String]) -> Option<Task>
    ensures exact { result ≡ job_of (map string_bytes words.now) }
    ensures query { IfSome result (λ task. IfSome task.query (λ place. place < length words.now)) }
    ensures scenario { IfSome result (λ task. IfSome task.scenario (λ place. place < length words.now)) }
    ensures budget { IfSome result (λ task. (1 ≤ task.budget) × (task.budget ≤ 100000)) }
    ensures answers { IfSome result (λ task. (1 ≤ task.answers) × (task.answers ≤ 1000)) }
{
    if words.is_empty() {
        return None;
    }
    if let Some(command) = search_command(words[0].as_str()) {
        return search_task(command, read_options(words)?);
    }
    let command = single_command(words[0].as_str(), &words[1..])?;
    Some(Task {
        command,
        query: None,
        scenario: None,
        budget: BUDGET,
        answers: ANSWERS,
    })
}

/// The command of a word that asks for a search.
fn search_command(word: &str) -> Option<Command>
    ensures { result ≡ search_command_of word.now }
{
    if word == "answer" {
        return Some(Command::Answer);
    }
    if word == "explain" {
        return Some(Command::Explain);
    }
    if word == "certify" {
        return Some(Command::Certify);
    }
    None
}

/// The command of a word that no word follows.
fn single_command(word: &str, rest: &[String]) -> Option<Command>
    ensures { result ≡ single_command_of word.now (map string_bytes rest.now) }
{
    if !rest.is_empty() {
        return None;
    }
    lone_command(word)
}

/// The command of a word that stands alone.
fn lone_command(word: &str) -> Option<Command>
    ensures { result ≡ lone_command_of word.now }
{
    if word == "clauses" {
        return Some(Command::Clauses);
    }
    if word == "check" {
        return Some(Command::Check);
    }
    None
}

/// The task of a command that searches, with these options.
fn search_task(command: Command, options: Options) -> Option<Task>
    ensures { result ≡ search_task_of command options }
{
    let query = options.query?;
    Some(Task {
        command,
        query: Some(query),
        scenario: options.scenario,
        budget: options.budget.unwrap_or(BUDGET),
        answers: options.answers.unwrap_or(ANSWERS),
    })
}

/// The options after the first word.
fn read_options(words: &[String]) -> Option<Options>
    requires { 0 < length words.now }
    ensures exact { result ≡ options_from 1 no_options (map string_bytes (drop 1 words.now)) }
    ensures within { IfSome result (λ o. AreOptions (length words.now) o) }
{
    let mut options = Options {
        query: None,
        scenario: None,
        budget: None,
        answers: None,
    };
    let mut at = 1;
    while at < words.len() {
        if at + 1 == words.len() {
            return None;
        }
        options = with_option(options, words[at].as_str(), at + 1, words[at + 1].as_str())?;
        at += 2;
    }
    Some(options)
}

/// The options with one more, whose value is the word at this place, or None where it is none.
#[tactic(auto, unfolding(crate::specs::Job::with_option))]
fn with_option(options: Options, name: &str, place: usize, value: &str) -> Option<Options>
    ensures exact { result ≡ with_option options name.now place value.now }
    ensures within { (count : ℕ) → place < count → AreOptions count options → IfSome result (AreOptions count) }
{
    if name == "--query" && options.query.is_none() {
        return Some(Options {
            query: Some(place),
            ..options
        });
    }
    if name == "--scenario" && options.scenario.is_none() {
        return Some(Options {
            scenario: Some(place),
            ..options
        });
    }
    if name == "--budget" && options.budget.is_none() {
        let budget = count_up_to(BUDGET, value)?;
        return Some(Options {
            budget: Some(budget),
            ..options
        });
    }
    if name == "--answers" && options.answers.is_none() {
        let answers = count_up_to(MOST_ANSWERS, value)?;
        return Some(Options {
            answers: Some(answers),
            ..options
        });
    }
    None
}
