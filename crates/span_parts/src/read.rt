//! Reading a part of a leaf's range from a shard.
ghost use Rattle.std.specs.Prelude.{◌≡◌, Err, IfSome, MatchOption, MatchResult};
ghost use Rattle.std.specs.List.{AllByRecursion};
ghost use Rattle.span_schema.specs.Numbers.{IsTable};
ghost use Rattle.span_leaves.specs.Maskable.{IsMaskable};
ghost use Rattle.span_machine.specs.Pieces.{machine_of};
ghost use Rattle.span_journal.specs.Judged.{leaf_of};
ghost use Rattle.span_parts.specs.Whole.{IsRead, IsReadFor, IsUnread};

use span_columns::leaf::Leaf;
use span_fragment::piece::Piece;
use span_fragment::run::run_leaf;
use span_journal::journal::{Gap, Journal};
use span_query::query::BoundQuery;
use span_schema::schema::Schema;
use span_shard::shard::Shard;
use span_value::refusal::Refusal;
use std::alloc::Global;

/// What a leaf of an open query gives on a part of its range, from the shard that has it, or rows that are as good for the query.
/// `UnknownQuery` where there is no such leaf. `OutOfMemory`, where the shard has rows of the schema's tables.
pub(crate) fn read_gap(
    alloc: Global,
    schema: &Schema,
    journal: &Journal,
    shard: &Shard,
    query: u64,
    leaf: usize,
    gap: &Gap,
) -> Result<Piece, Refusal>
    requires tables { IfSome (leaf_of (machine_of journal.now) query leaf)
        (λ l. AllByRecursion (IsTable schema.now) l.tables) }
    requires maskable { IfSome (leaf_of (machine_of journal.now) query leaf) (IsMaskable schema.now) }
    ensures { MatchOption (leaf_of (machine_of journal.now) query leaf)
        (result ≡ Err Refusal.UnknownQuery)
        (λ _.
        MatchResult result
        (IsReadFor schema.now (machine_of journal.now) query leaf shard.now gap.now.range gap.now.s)
        (IsUnread schema.now shard.now gap.now.range gap.now.s)) }
{
    let Some(question) = journal.query(query) else {
        return Err(Refusal::UnknownQuery);
    };
    let Some(own) = journal.leaf(query, leaf) else {
        return Err(Refusal::UnknownQuery);
    };
    read_leaf(alloc, schema, shard, own, &question.top, leaf, gap)
}

/// What a leaf gives on a part of its range, from the shard that has it, or rows that are as good for the query above the leaves, whose leaf it
/// is at this place, counted from 0. `OutOfMemory`, where the shard has rows of the schema's tables.
pub fn read_leaf(
    alloc: Global,
    schema: &Schema,
    shard: &Shard,
    leaf: &Leaf,
    top: &BoundQuery,
    place: usize,
    gap: &Gap,
) -> Result<Piece, Refusal>
    requires tables { AllByRecursion (IsTable schema.now) leaf.now.tables }
    requires maskable { IsMaskable schema.now leaf.now }
    ensures { MatchResult result
        (IsRead schema.now shard.now gap.now.range gap.now.s leaf.now top.now place)
        (IsUnread schema.now shard.now gap.now.range gap.now.s) }
{
    let snapshot = shard.snapshot(&gap.range, gap.s);
    run_leaf(alloc, schema, leaf, top, place, snapshot)
}
