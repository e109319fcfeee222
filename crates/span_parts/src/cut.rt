//! Splits: a slot is cut in two at a root key.
ghost use Rattle.std.specs.Prelude.{◌≡◌, IfOk, IfErr, OnErr, OnOk, length};
ghost use Rattle.span_keycode.specs.Coding.{AreValues};
ghost use Rattle.span_journal.specs.Judged.{MaySplit};
ghost use Rattle.span_machine.specs.Machine.{Answers, IsAnswer, split, split_at};
ghost use Rattle.span_machine.specs.Pieces.{machine_of};
ghost use Rattle.span_machine.specs.declared.step.Reply.TheVariants as reply_of;
ghost use Rattle.span_parts.specs.Replies.{as_reply};
ghost use Rattle.span_parts.specs.Whole.{IsWhole, BelongsAt, CodesRootKey, IsCutAt};

use super::shards::cut_at;
use span_checking::root_key::root_key;
use span_journal::journal::Journal;
use span_keycode::key::Key;
use span_schema::schema::Schema;
use span_shard::shard::Shard;
use span_value::refusal::Refusal;
use span_value::value::Value;
use std::alloc::Global;

/// Cuts the slot that has a key of a root table in two there: the keys from it on go to a new slot, whose number is returned. All memory is
/// taken before anything is moved.
pub fn split(
    alloc: Global,
    schema: &Schema,
    journal: &mut Journal,
    shards: &mut Vec<Shard>,
    table: &str,
    key: &[Value],
) -> Result<usize, Refusal>
    requires whole { IsWhole schema.now journal.old shards.old.items }
    requires values { AreValues key.now }
    ensures step { Answers (machine_of journal.old)
        (split schema.now (machine_of journal.old) table.now key.now)
        (as_reply reply_of.Split result)
        (machine_of journal.new) }
    ensures whole { IsWhole schema.now journal.new shards.new.items }
{
    match root_key(alloc, schema, table, key) {
        Ok(code) => split_at(alloc, schema, journal, shards, code),
        Err(why) => Err(why),
    }
}

/// Cuts the slot that has the coded root key in two there.
fn split_at(
    alloc: Global,
    schema: &Schema,
    journal: &mut Journal,
    shards: &mut Vec<Shard>,
    key: Key,
) -> Result<usize, Refusal>
    requires whole { IsWhole schema.now journal.old shards.old.items }
    requires coded { CodesRootKey schema.now key }
    ensures step { Answers (machine_of journal.old)
        (split_at (machine_of journal.old) key)
        (as_reply reply_of.Split result)
        (machine_of journal.new) }
    ensures whole { IsWhole schema.now journal.new shards.new.items }
{
    schema.meets_rules();
    match journal.check_split(&key) {
        Ok(slot) => match journal.reserve_split(alloc, slot, &key) {
            Ok(cut) => match cut_at(alloc, shards, slot, key.as_slice()) {
                Ok(()) => Ok(journal.finish_split(slot, cut)),
                Err(why) => Err(why),
            },
            Err(why) => Err(why),
        },
        Err(why) => Err(why),
    }
}

/// Cuts the shard of a slot in two at the coded root key, for a caller that has the journal and that shard alone: returns the shard of the
/// new slot. The refusal is `OutOfMemory`, which leaves all as it was.
pub fn cut_in(
    alloc: Global,
    schema: &Schema,
    journal: &mut Journal,
    shard: &mut Shard,
    slot: usize,
    key: &Key,
) -> Result<Shard, Refusal>
    requires belongs { BelongsAt schema.now journal.old slot shard.old }
    requires coded { CodesRootKey schema.now key.now }
    requires may { MaySplit (machine_of journal.old) slot key.now }
    ensures step { OnOk result (IsAnswer (split_at (machine_of journal.old) key.now)
        (reply_of.Split (length journal.old.slots))
        (machine_of journal.new)) }
    ensures cut { IfOk result (IsCutAt schema.now slot journal.old journal.new shard.old shard.new) }
    ensures err { OnErr result ((journal.new ≡ journal.old) × (shard.new ≡ shard.old)) }
    ensures memory { IfErr result (λ why. why ≡ Refusal.OutOfMemory) }
{
    schema.meets_rules();
    match journal.reserve_split(alloc, slot, key) {
        Ok(cut) => match shard.split(alloc, key.as_slice()) {
            Ok(part) => {
                journal.finish_split(slot, cut);
                Ok(part)
            }
            Err(why) => Err(why),
        },
        Err(why) => Err(why),
    }
}
