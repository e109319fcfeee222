//! Whether an open query is the one that a session asks.
ghost use Rattle.std.specs.Prelude.{◌≡◌, true, Some, find};
ghost use Rattle.span_machine.specs.Machine.{is_query};
ghost use Rattle.span_machine.specs.Pieces.{machine_of};
ghost use Rattle.span_machine.specs.declared.query.OpenQuery.{OpenQuery};

use crate::same::are_same;
use span_journal::journal::Journal;
use span_machine::query::OpenQuery;
use span_params::params::Params;

/// Whether the journal has this query open with this query text and these parameters.
pub fn is_asked(journal: &Journal, query: u64, text: &str, params: &Params) -> bool
    ensures { result ≡ true
        → (q : OpenQuery)
        × (find (is_query query) (machine_of journal.now).queries ≡ Some q)
        × (q.text ≡ text.now)
        × (q.params ≡ params.now) }
{
    match journal.query(query) {
        Some(question) => is_question(question, text, params),
        None => false,
    }
}

/// Whether the open query was asked with this query text and these parameters.
fn is_question(question: &OpenQuery, text: &str, params: &Params) -> bool
    ensures { result ≡ true → (question.now.text ≡ text.now) × (question.now.params ≡ params.now) }
{
    question.text.as_str() == text && are_same(question.params.as_slice(), params.as_slice())
}
