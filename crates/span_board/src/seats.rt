//! The steps of the rule, on bare seats: the keeper's joins another, the two step as one, and they part.
ghost use Rattle.std.specs.Prelude.{◌≡◌, ◌<◌, [], ◌∷◌, ◌++◌, length};
ghost use mathlib.Core.List.{IsPrefix};
ghost use Rattle.span_truetime.specs.Limits.{timestamp_end};
ghost use Rattle.span_board.specs.Known.{kept, grown, restated, restated_twice, owned};
ghost use Rattle.span_board.specs.Rule.{number_of, versions_of, known_at, seen_of, mine_of, shard_of_change};
ghost use Rattle.span_board.specs.declared.board.Role.TheVariants.{Holder, Keeper, Client};

use crate::board::{Agree, Board, Catch, Change, DbSeat, Meet, Naming, Publish, Restate, View};
use atomic_table::Badge;
use span_machine::transaction::Commit;
use span_shard::shard::Shard;
use std::alloc::Global;

/// The log grows by a commit of the session whose seat it is.
pub fn grow<J: Naming>(
    board: &Board<J>,
    seat: &mut DbSeat,
    keeper: Badge<View>,
    owner: u64,
    count: u64,
    commit: Commit,
) -> Badge<View>
    requires tables { (seat.old.table_id ≡ J.table) × (keeper.table_id ≡ J.table) }
    requires client { seat.old.me ≡ (Client owner (seen_of seat.old.me.0) (mine_of seat.old.me.0) ∷ [], []) }
    requires keeper { keeper.views ≡ (Keeper (known_at keeper.views) ∷ []) ∷ [] }
    requires owner { commit.owner ≡ owner }
    requires count { (length (known_at keeper.views).commits ≡ count) × (count < timestamp_end) }
    ensures tables { (seat.new.table_id ≡ J.table) × (result.table_id ≡ J.table) }
    ensures known { IsPrefix (seen_of seat.old.me.0) (known_at keeper.views).commits
        × (owned owner (seen_of seat.old.me.0) ≡ mine_of seat.old.me.0)
        × (owned owner (known_at keeper.views).commits ≡ mine_of seat.old.me.0) }
    ensures client { seat.new.me
        ≡ (Client owner ((known_at keeper.views).commits ++ commit ∷ []) (mine_of seat.old.me.0 ++ commit ∷ []) ∷ [], []) }
    ensures keeper { result.views ≡ (Keeper (grown (known_at keeper.views) commit) ∷ []) ∷ [] }
{
    let change = Change::Grown(commit);
    let shared = &board.table.shared;
    shared.join_seat::<Meet>(seat, keeper.into_seat());
    shared.compare_exchange_with::<Publish>(seat, 0, count, count + 1, &change);
    shared.split_seat::<Meet>(seat).into_badge()
}

/// The session whose seat it is sees the whole log.
pub fn show<J: Naming>(
    board: &Board<J>,
    seat: &mut DbSeat,
    keeper: Badge<View>,
    owner: u64,
) -> Badge<View>
    requires tables { (seat.old.table_id ≡ J.table) × (keeper.table_id ≡ J.table) }
    requires client { seat.old.me ≡ (Client owner (seen_of seat.old.me.0) (mine_of seat.old.me.0) ∷ [], []) }
    requires keeper { keeper.views ≡ (Keeper (known_at keeper.views) ∷ []) ∷ [] }
    ensures tables { (seat.new.table_id ≡ J.table) × (result.table_id ≡ J.table) }
    ensures known { IsPrefix (seen_of seat.old.me.0) (known_at keeper.views).commits }
    ensures client { seat.new.me ≡ (Client owner (known_at keeper.views).commits (mine_of seat.old.me.0) ∷ [], []) }
    ensures keeper { result.views ≡ keeper.views }
{
    let shared = &board.table.shared;
    shared.join_seat::<Meet>(seat, keeper.into_seat());
    shared.load::<Catch>(seat, 0);
    shared.split_seat::<Meet>(seat).into_badge()
}

/// What the slot has is what the journal knows of it.
pub fn agree<J: Naming>(board: &Board<J>, seat: &mut DbSeat, keeper: Badge<View>) -> Badge<View>
    requires tables { (seat.old.table_id ≡ J.table) × (keeper.table_id ≡ J.table) }
    requires holder { seat.old.me ≡ (Holder (number_of seat.old.me.0) (versions_of seat.old.me.0) ∷ [], []) }
    requires keeper { keeper.views ≡ (Keeper (known_at keeper.views) ∷ []) ∷ [] }
    ensures tables { (seat.new.table_id ≡ J.table) × (result.table_id ≡ J.table) }
    ensures known { (versions_of seat.old.me.0 ≡ kept (known_at keeper.views) (number_of seat.old.me.0))
        × (number_of seat.old.me.0 < length (known_at keeper.views).slots) }
    ensures holder { seat.new.me ≡ seat.old.me }
    ensures keeper { result.views ≡ keeper.views }
{
    let shared = &board.table.shared;
    shared.join_seat::<Meet>(seat, keeper.into_seat());
    shared.load::<Agree>(seat, 0);
    shared.split_seat::<Meet>(seat).into_badge()
}

/// The slot's seat and the keeper's take over what the shard is now.
pub fn restate<J: Naming>(
    board: &Board<J>,
    seat: &mut DbSeat,
    keeper: Badge<View>,
    shard: Shard,
) -> (Badge<View>, Shard)
    requires tables { (seat.old.table_id ≡ J.table) × (keeper.table_id ≡ J.table) }
    requires holder { seat.old.me ≡ (Holder (number_of seat.old.me.0) (versions_of seat.old.me.0) ∷ [], []) }
    requires keeper { keeper.views ≡ (Keeper (known_at keeper.views) ∷ []) ∷ [] }
    ensures tables { (seat.new.table_id ≡ J.table) × (result.0.table_id ≡ J.table) }
    ensures known { (versions_of seat.old.me.0 ≡ kept (known_at keeper.views) (number_of seat.old.me.0))
        × (number_of seat.old.me.0 < length (known_at keeper.views).slots) }
    ensures holder { seat.new.me ≡ (Holder (number_of seat.old.me.0) shard ∷ [], []) }
    ensures keeper { result.0.views
        ≡ (Keeper (restated (known_at keeper.views) (number_of seat.old.me.0) shard) ∷ []) ∷ [] }
    ensures shard { result.1 ≡ shard }
{
    let shared = &board.table.shared;
    let change = Change::Restated(shard);
    shared.join_seat::<Meet>(seat, keeper.into_seat());
    // Whether it exchanges does not matter: the word stays as it is, and the step says what the shard is now.
    shared.compare_exchange_with::<Restate>(seat, 0, 0, 0, &change);
    let keeper = shared.split_seat::<Meet>(seat).into_badge();
    (keeper, shard_in(change, board.alloc))
}

/// The seats of a slot that was cut and of the new slot, and the keeper's, take over what the shards are now, one after the other.
pub fn restate_both<J: Naming>(
    board: &Board<J>,
    seat: &mut DbSeat,
    next: &mut DbSeat,
    keeper: Badge<View>,
    shard: Shard,
    part: Shard,
) -> (Badge<View>, Shard, Shard)
    requires tables { (seat.old.table_id ≡ J.table) × (next.old.table_id ≡ J.table) × (keeper.table_id ≡ J.table) }
    requires holder { seat.old.me ≡ (Holder (number_of seat.old.me.0) (versions_of seat.old.me.0) ∷ [], []) }
    requires next { next.old.me ≡ (Holder (number_of next.old.me.0) (versions_of next.old.me.0) ∷ [], []) }
    requires keeper { keeper.views ≡ (Keeper (known_at keeper.views) ∷ []) ∷ [] }
    ensures tables { (seat.new.table_id ≡ J.table) × (next.new.table_id ≡ J.table) × (result.0.table_id ≡ J.table) }
    ensures room { number_of next.old.me.0
        < length (restated (known_at keeper.views) (number_of seat.old.me.0) shard).slots }
    ensures holder { seat.new.me ≡ (Holder (number_of seat.old.me.0) shard ∷ [], []) }
    ensures next { next.new.me ≡ (Holder (number_of next.old.me.0) part ∷ [], []) }
    ensures keeper { result.0.views
        ≡ (Keeper (restated_twice (known_at keeper.views) (number_of seat.old.me.0) shard
        (number_of next.old.me.0) part) ∷ []) ∷ [] }
    ensures shard { result.1 ≡ shard }
    ensures part { result.2 ≡ part }
{
    let (between, shard) = restate(board, seat, keeper, shard);
    let (after, part) = restate(board, next, between, part);
    (after, shard, part)
}

/// The shard of which a step said that it is so now.
fn shard_in(said: Change, alloc: Global) -> Shard
    ensures { result ≡ shard_of_change said }
{
    match said {
        Change::Restated(shard) => shard,
        Change::Grown(_commit) => Shard::new(alloc),
    }
}
