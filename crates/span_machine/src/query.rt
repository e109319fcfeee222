//! Open queries.
use span_columns::leaf::Leaf;
use span_keycode::range::KeyRange;
use span_params::params::Params;
use span_query::query::{BoundQuery, Statement};
use span_value::seq::Seq;
use span_value::text::Text;

/// A leaf that an open query scans.
#[derive(Debug, Drop)]
pub struct ScanLeaf {
    pub leaf: Leaf,
    /// The parts of its range that pieces cover, in the order of their low ends.
    pub covered: Seq<KeyRange>,
}

/// A query from its Open to its Close.
#[derive(Debug, Drop)]
pub struct OpenQuery {
    pub number: u64,
    /// The query text and the parameters that it was opened with.
    pub text: Text,
    pub params: Params,
    /// What the query text is understood as.
    pub statement: Statement,
    /// The timestamp that it reads at.
    pub s: u64,
    /// The leaves of its plan, in the order of the query text.
    pub leaves: Seq<ScanLeaf>,
    /// The query above them.
    pub top: BoundQuery,
}
