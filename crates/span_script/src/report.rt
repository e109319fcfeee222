//! Reports of refused commands, beside their answers.
ghost use Rattle.std.specs.Prelude.{◌≡◌, ◌-◌, length, IfSome};
ghost use Rattle.std.specs.Option.{option_map};
ghost use Rattle.span_script.specs.Reports.{Ends, EndsWith, IsQueryIn, IsQueryOf, text_of};

use span_command::command::{Command, read_command};
use span_command::line::Line;
use span_steps::refused::Refused;

/// The query text of a line, which ends the line.
#[derive(Clone, Copy, Debug, PartialEq, Eq)]
pub struct QueryText<'a> {
    /// How many bytes of the line are before it.
    pub before: usize,
    pub text: &'a str,
}

/// Where the refused commands of a script are reported.
pub trait Reports {
    /// A command was refused; `query` is the query text of the line that is wrong, where that has one. A report that
    /// is lost changes no answer, so none of its failures is returned.
    fn report(&mut self, refused: Refused, query: Option<QueryText<'_>>);
}

/// The query text that a command has.
fn text_of<'a>(command: &Command<'a>) -> Option<&'a str>
    ensures { option_map (λ text. text.now) result ≡ text_of command.now }
{
    match command {
        Command::Open { text, .. } => Some(*text),
        Command::Query { text, .. } => Some(*text),
        Command::Explain { text } => Some(*text),
        _ => None,
    }
}

/// The query text of a line; None where the line is no command that has one.
pub fn query_of(line: Line<'_>) -> Option<QueryText<'_>>
    ensures end { IfSome result (EndsWith line.entry) }
    ensures text { IsQueryOf line.entry (option_map (λ query. query.text.now) result) }
{
    match line {
        Line::Text(line) => text_query(line),
        Line::Unreadable => None,
    }
}

/// The same of a line that is a text.
fn text_query(line: &str) -> Option<QueryText<'_>>
    ensures end { IfSome result (Ends line.now) }
    ensures text { IsQueryIn line.now (option_map (λ query. query.text.now) result) }
{
    let command = read_command(line)?;
    let text = text_of(&command)?;
    Some(at_the_end(line, text))
}

/// A text that ends a line.
fn at_the_end<'a>(line: &str, text: &'a str) -> QueryText<'a>
    ensures before { result.before ≡ length line.now - length text.now }
    ensures text { result.text.now ≡ text.now }
{
    QueryText {
        before: line.len().saturating_sub(text.len()),
        text,
    }
}
