//! An open query with its pieces.
ghost use Rattle.std.specs.Prelude.{◌≡◌, ◌<◌, ◌≤◌, IfOk, OnOk, OnErr, IfSome, Some, true, length, map, slice_get};
ghost use Rattle.std.specs.List.{list_all};
ghost use Rattle.std.specs.Option.{option_copied};
ghost use Rattle.span_keycode.specs.Parts.{AreApart};
ghost use Rattle.span_machine.specs.Machine.{add_piece, is_covered, uncovered, with_piece};
ghost use Rattle.span_machine.specs.Pieces.{covered_by, no_pieces, unread, insert_piece, insert_piece_at};
ghost use Rattle.span_openqueries.specs.Counts.{AreCounted, is_uncovered};
ghost use Rattle.span_openqueries.specs.Planned.{IsPlanned};
ghost use Rattle.span_openqueries.specs.Targets.{taken_of};

use super::owned::insert_in_both;
use super::planned::PlannedQuery;
use super::taken::Taken;
use span_columns::leaf::{Leaf, Plan};
use span_fragment::piece::Piece;
use span_keycode::parts::{place_among, tiles};
use span_keycode::range::KeyRange;
use span_machine::query::{OpenQuery, ScanLeaf};
use span_query::query::BoundQuery;
use span_schema::schema::Schema;
use span_value::owned::keep_with;
use span_value::seq::Seq;
use sqlite_items::Items;
use std::alloc::{AllocError, Global};
use std::marker::Model;
use std::mem;

/// An open query, and for each of its leaves the pieces that cover it, in the order of their ranges.
#[derive(Debug, Drop)]
pub struct KeptQuery {
    open: OpenQuery,
    pieces: Seq<Seq<Piece>>,
}

impl Model for KeptQuery {
    ghost use Rattle.span_machine.specs.Pieces.{Pieced};
    ghost use Rattle.span_expr.specs.contracts.expr.Expr as expr;
    ghost use Rattle.span_query.specs.contracts.query.BoundQuery as bound_query;
    ghost use Rattle.std.specs.Coded.{codes};
    ghost use Rattle.span_openqueries.specs.Counts.{AreCounted, AreAllApart};

    ghost Value = { Pieced };

    ghost coded = { Prim.hlevel (codes, expr.the_row.coded, bound_query.the_row.coded) };

    ghost view = { λ a. record { query = a.open; pieces = a.pieces } };

    ghost invariant = { λ a. record {
      counted : AreCounted a.open.leaves a.pieces;
      apart : AreAllApart a.open.leaves;
    } };
}

/// Leaves that no piece covers.
fn uncovered_leaves(alloc: Global, leaves: Items<Leaf>) -> Result<Seq<ScanLeaf>, AllocError>
    ensures { IfOk result (λ found. found ≡ map uncovered leaves) }
{
    let mut left = leaves;
    let mut found = Vec::with_capacity(alloc, left.len())?;
    while let Some(leaf) = left.pop() {
        let covered = Seq::new(alloc);
        found.push(ScanLeaf { leaf, covered })?;
    }
    found.reverse();
    Ok(Seq::from_vec(found))
}

/// No pieces for each leaf.
fn empty_pieces(alloc: Global, leaves: &[Leaf]) -> Result<Seq<Seq<Piece>>, AllocError>
    ensures { IfOk result (λ pieces. pieces ≡ map no_pieces leaves.now) }
{
    let mut pieces = Seq::new(alloc);
    for _leaf in leaves {
        pieces.push(Seq::new(alloc))?;
    }
    Ok(pieces)
}

/// What an open query has for its plan.
#[derive(Drop)]
struct Unread {
    leaves: Seq<ScanLeaf>,
    pieces: Seq<Seq<Piece>>,
    top: BoundQuery,
}

/// The leaves of a plan, no pieces for each, and the query above them.
fn unread_plan(alloc: Global, plan: Plan) -> Result<Unread, AllocError>
    ensures { IfOk result
        (λ u.
        (u.leaves ≡ map uncovered plan.leaves)
        × (u.pieces ≡ map no_pieces plan.leaves)
        × (u.top ≡ plan.top)) }
{
    let Plan { leaves, top } = plan;
    let pieces = empty_pieces(alloc, leaves.as_slice());
    let (top, pieces) = keep_with(top, pieces)?;
    let ((top, pieces), leaves) = keep_with((top, pieces), uncovered_leaves(alloc, leaves))?;
    Ok(Unread {
        leaves,
        pieces,
        top,
    })
}

/// Whether pieces tile the leaf's range.
fn is_tiled(leaf: &ScanLeaf) -> bool
    ensures { result ≡ is_covered leaf.now }
{
    tiles(&leaf.leaf.range, leaf.covered.as_slice())
}

/// Adds a piece to a leaf and to its pieces. An error leaves both as they were.
fn add_piece(
    alloc: Global,
    leaf: &mut ScanLeaf,
    pieces: &mut Seq<Piece>,
    range: KeyRange,
    piece: Piece,
) -> Result<(), AllocError>
    requires { length pieces.old ≡ length leaf.old.covered }
    ensures ok { OnOk result
        ((leaf.new ≡ add_piece range leaf.old) × (pieces.new ≡ insert_piece leaf.old range piece pieces.old)) }
    ensures err { OnErr result ((leaf.new ≡ leaf.old) × (pieces.new ≡ pieces.old)) }
{
    let at = place_among(leaf.covered.as_slice(), &range);
    insert_in_both(alloc, &mut leaf.covered, pieces, at, range, piece)
}

/// Adds a piece to the leaf at a place. An error leaves all as it was.
fn add_piece_at(
    alloc: Global,
    leaves: &mut Vec<ScanLeaf>,
    pieces: &mut Vec<Seq<Piece>>,
    leaf: usize,
    range: KeyRange,
    piece: Piece,
) -> Result<(), AllocError>
    requires counted { AreCounted leaves.old.items pieces.old.items }
    requires within { leaf < length leaves.old.items }
    ensures ok { OnOk result
        ((leaves.new.items ≡ with_piece leaves.old.items leaf range)
        × (pieces.new.items ≡ insert_piece_at leaves.old.items leaf range piece pieces.old.items)) }
    ensures err { OnErr result ((leaves.new.items ≡ leaves.old.items) × (pieces.new.items ≡ pieces.old.items)) }
{
    add_piece(alloc, &mut leaves[leaf], &mut pieces[leaf], range, piece)
}

fn leaf_at(leaves: &[ScanLeaf], leaf: usize) -> Option<&ScanLeaf>
    ensures { option_copied result ≡ slice_get leaves.now leaf }
{
    leaves.get(leaf)
}

impl KeptQuery {
    /// A query whose leaves no piece covers.
    pub fn new(
        alloc: Global,
        schema: &Schema,
        number: u64,
        s: u64,
        query: PlannedQuery,
    ) -> Result<KeptQuery, AllocError>
        requires { IsPlanned schema.now query }
        ensures { IfOk result (λ kept. kept ≡ unread schema.now number s query.text query.params query.statement) }
    {
        let _ = schema;
        let PlannedQuery {
            text,
            params,
            statement,
            plan,
        } = query;
        let unread = unread_plan(alloc, plan);
        let (
            statement,
            Unread {
                leaves,
                pieces,
                top,
            },
        ) = keep_with(statement, unread)?;
        let open = OpenQuery {
            number,
            text,
            params,
            statement,
            s,
            leaves,
            top,
        };
        Ok(KeptQuery { open, pieces })
    }

    /// The query as it was opened, with what pieces cover of its leaves.
    pub fn as_opened(&self) -> &OpenQuery
        ensures { result.now ≡ self.now.query }
    {
        &self.open
    }

    /// Its number.
    pub fn number(&self) -> u64
        ensures { result ≡ self.now.query.number }
    {
        self.open.number
    }

    /// The timestamp that it reads at.
    pub fn timestamp(&self) -> u64
        ensures { result ≡ self.now.query.s }
    {
        self.open.s
    }

    /// The number of its leaves.
    pub fn count_leaves(&self) -> usize
        ensures { result ≡ length self.now.query.leaves }
    {
        self.open.leaves.len()
    }

    /// The query above its leaves.
    pub fn top(&self) -> &BoundQuery
        ensures { result.now ≡ self.now.query.top }
    {
        &self.open.top
    }

    /// The leaf at a place, if there is one. The first is at 0.
    pub fn leaf(&self, leaf: usize) -> Option<&ScanLeaf>
        ensures leaf { option_copied result ≡ slice_get self.now.query.leaves leaf }
        ensures apart { IfSome result (λ l. AreApart l.now.covered) }
    {
        leaf_at(self.open.leaves.as_slice(), leaf)
    }

    /// Whether pieces cover all of its leaves.
    pub fn is_covered(&self) -> bool
        ensures { result ≡ list_all is_covered self.now.query.leaves }
    {
        self.open.leaves.as_slice().iter().all(|l| is_tiled(l))
    }

    /// For each of its leaves its pieces, in the order of their ranges.
    pub fn pieces(&self) -> &[Seq<Piece>]
        ensures { result.now ≡ self.now.pieces }
    {
        self.pieces.as_slice()
    }

    /// Covers a part of the leaf at a place by a piece. An error leaves all as it was.
    pub fn cover(
        &mut self,
        alloc: Global,
        leaf: usize,
        range: KeyRange,
        piece: Piece,
    ) -> Result<(), AllocError>
        requires within { leaf < length self.old.query.leaves }
        requires uncovered { IfSome (slice_get self.old.query.leaves leaf) (λ l. is_uncovered l range ≡ true) }
        ensures ok { OnOk result (self.new ≡ covered_by leaf range piece self.old) }
        ensures err { OnErr result (self.new ≡ self.old) }
    {
        let mut leaves = mem::replace(&mut self.open.leaves, Seq::new(alloc)).into_vec();
        let mut pieces = mem::replace(&mut self.pieces, Seq::new(alloc)).into_vec();
        let added = add_piece_at(alloc, &mut leaves, &mut pieces, leaf, range, piece);
        self.open.leaves = Seq::from_vec(leaves);
        self.pieces = Seq::from_vec(pieces);
        added
    }

    /// Its parts, without copies.
    pub fn into_parts(self) -> Taken
        ensures { result ≡ taken_of self }
    {
        let KeptQuery { open, pieces } = self;
        let OpenQuery {
            text,
            params,
            statement,
            s,
            top,
            ..
        } = open;
        Taken {
            text,
            params,
            statement,
            s,
            top,
            pieces,
        }
    }
}
