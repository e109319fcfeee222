//! The names that an expression may use.
ghost use Rattle.std.specs.Prelude.{◌≡◌, ◌<◌, length, position, IfSome};
ghost use Rattle.std.specs.List.{list_any};
ghost use Rattle.span_typing.specs.Scopes as spec;

use span_schema::table::are_same;
use span_trees::tree::{Column, Spelling};
use span_value::refusal::Refusal;
use span_value::seq::Seq;
use span_value::text::Text;
use span_value::value::Kind;

/// A column that a FROM gives.
#[derive(Debug, Drop)]
pub struct ScopeColumn {
    /// The place of its item in the FROM, counted from 0.
    pub item: usize,
    /// A column of a derived table may have no name.
    pub name: Option<Text>,
    pub kind: Kind,
}

/// The names of a block: its items, their columns, and the grouped columns.
#[derive(Debug, Drop)]
pub struct Scope {
    /// The names of the items of the FROM: their aliases, or else the names of their tables.
    pub items: Seq<Text>,
    /// The columns of the items, in their order.
    pub columns: Seq<ScopeColumn>,
    /// The grouped columns, by their places among the columns.
    pub keys: Seq<usize>,
}

fn is_named(name: &str, found: &Option<Text>) -> bool
    ensures { result ≡ spec.is_named name.now found.now }
{
    match found {
        None => false,
        Some(found) => are_same(found.as_str(), name),
    }
}

fn fits(item: Option<usize>, name: &str, column: &ScopeColumn) -> bool
    ensures { result ≡ spec.fits item name.now column.now }
{
    let is_in_item = match item {
        None => true,
        Some(item) => column.item == item,
    };
    is_in_item && is_named(name, &column.name)
}

/// The place of the item with a name.
pub fn item_named(scope: &Scope, name: &str) -> Option<usize>
    ensures { result ≡ spec.item_named scope.now name.now }
{
    scope
        .items
        .as_slice()
        .iter()
        .position(|item| are_same(item.as_str(), name))
}

/// The item before the dot, if there is one.
fn item_of(scope: &Scope, item: &Option<Spelling>) -> Result<Option<usize>, Refusal>
    ensures { result ≡ spec.item_of scope.now item.now }
{
    match item {
        None => Ok(None),
        Some(spelled) => match item_named(scope, spelled.text.as_str()) {
            None => Err(Refusal::NoColumn),
            Some(item) => Ok(Some(item)),
        },
    }
}

fn first_place(columns: &[ScopeColumn], item: Option<usize>, name: &str) -> Option<usize>
    ensures place { result ≡ position (spec.fits item name.now) columns.now }
    ensures within { IfSome result (λ place. place < length columns.now) }
{
    columns.iter().position(|column| fits(item, name, column))
}

fn has_place(columns: &[ScopeColumn], item: Option<usize>, name: &str) -> bool
    ensures { result ≡ list_any (spec.fits item name.now) columns.now }
{
    columns.iter().any(|column| fits(item, name, column))
}

/// The place of the one column of an item, or of any, that has the name.
fn place_named(columns: &[ScopeColumn], item: Option<usize>, name: &str) -> Result<usize, Refusal>
    ensures { result ≡ spec.one_place (spec.fits item name.now) columns.now }
{
    match first_place(columns, item, name) {
        None => Err(Refusal::NoColumn),
        Some(place) => {
            if has_place(&columns[place + 1..], item, name) {
                Err(Refusal::Ambiguous)
            } else {
                Ok(place)
            }
        }
    }
}

/// The place of the column with a name. The error is `NoColumn` where no item or no column has the name, or
/// `Ambiguous` where two columns have it.
#[tactic(auto, unfolding(crate::specs::Scopes::column_place))]
pub fn column_place(scope: &Scope, column: &Column) -> Result<usize, Refusal>
    ensures { result ≡ spec.column_place scope.now column.now }
{
    let item = item_of(scope, &column.table)?;
    place_named(scope.columns.as_slice(), item, column.name.text.as_str())
}
