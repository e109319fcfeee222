//! A query taken out of the journal.
use span_fragment::piece::Piece;
use span_params::params::Params;
use span_query::query::{BoundQuery, Statement};
use span_value::seq::Seq;
use span_value::text::Text;

/// What a query that pieces cover is answered by.
#[derive(Debug, Drop)]
pub struct Taken {
    /// The query text and the parameters that it was opened with.
    pub text: Text,
    pub params: Params,
    /// What the query text is understood as.
    pub statement: Statement,
    /// The timestamp that it reads at.
    pub s: u64,
    /// The query above the leaves of its plan.
    pub top: BoundQuery,
    /// For each of its leaves the pieces that cover it, in the order of their ranges.
    pub pieces: Seq<Seq<Piece>>,
}
