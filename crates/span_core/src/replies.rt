//! The replies of the machine, by what a step returns.
ghost use Rattle.std.specs.Prelude.{◌≡◌};
ghost use Rattle.span_machine.specs.declared.step.Reply.TheVariants as reply_of;
ghost use Rattle.span_parts.specs.Replies.{as_reply, decision_reply, scan_reply, rows_reply, opened_reply};

use span_gather::rows::Rows;
use span_journal::journal::Opened;
use span_machine::step::Reply;
use span_value::refusal::Refusal;

pub(crate) fn begin_reply(outcome: Result<u64, Refusal>) -> Reply
    ensures { result ≡ as_reply reply_of.Began outcome }
{
    match outcome {
        Ok(number) => Reply::Began(number),
        Err(why) => Reply::Refused(why),
    }
}

pub(crate) fn prepare_reply(outcome: Result<u64, Refusal>) -> Reply
    ensures { result ≡ as_reply reply_of.Prepared outcome }
{
    match outcome {
        Ok(timestamp) => Reply::Prepared(timestamp),
        Err(why) => Reply::Refused(why),
    }
}

pub(crate) fn decide_reply(outcome: Result<Option<u64>, Refusal>) -> Reply
    ensures { result ≡ as_reply decision_reply outcome }
{
    match outcome {
        Ok(Some(timestamp)) => Reply::Decided(timestamp),
        Ok(None) => Reply::Aborted,
        Err(why) => Reply::Refused(why),
    }
}

pub(crate) fn apply_reply(outcome: Result<(), Refusal>) -> Reply
    ensures { result ≡ as_reply (λ _. reply_of.Applied) outcome }
{
    match outcome {
        Ok(()) => Reply::Applied,
        Err(why) => Reply::Refused(why),
    }
}

pub(crate) fn advance_reply(outcome: Result<u64, Refusal>) -> Reply
    ensures { result ≡ as_reply reply_of.Floor outcome }
{
    match outcome {
        Ok(floor) => Reply::Floor(floor),
        Err(why) => Reply::Refused(why),
    }
}

pub(crate) fn trim_reply(outcome: Result<usize, Refusal>) -> Reply
    ensures { result ≡ as_reply reply_of.Trimmed outcome }
{
    match outcome {
        Ok(kept) => Reply::Trimmed(kept),
        Err(why) => Reply::Refused(why),
    }
}

pub(crate) fn scan_reply(outcome: Result<bool, Refusal>) -> Reply
    ensures { result ≡ as_reply scan_reply outcome }
{
    match outcome {
        Ok(true) => Reply::Scanned,
        Ok(false) => Reply::Nothing,
        Err(why) => Reply::Refused(why),
    }
}

pub(crate) fn finish_reply(outcome: Result<(u64, Rows), Refusal>) -> Reply
    ensures { result ≡ as_reply rows_reply outcome }
{
    match outcome {
        Ok((s, rows)) => Reply::Rows { s, rows },
        Err(why) => Reply::Refused(why),
    }
}

pub(crate) fn close_reply(outcome: Result<(), Refusal>) -> Reply
    ensures { result ≡ as_reply (λ _. reply_of.Closed) outcome }
{
    match outcome {
        Ok(()) => Reply::Closed,
        Err(why) => Reply::Refused(why),
    }
}

pub(crate) fn split_reply(outcome: Result<usize, Refusal>) -> Reply
    ensures { result ≡ as_reply reply_of.Split outcome }
{
    match outcome {
        Ok(slot) => Reply::Split(slot),
        Err(why) => Reply::Refused(why),
    }
}

pub(crate) fn open_reply(outcome: Result<Opened, Refusal>) -> Reply
    ensures { result ≡ as_reply opened_reply outcome }
{
    match outcome {
        Ok(Opened { query, s, leaves }) => Reply::Opened { query, s, leaves },
        Err(why) => Reply::Refused(why),
    }
}
