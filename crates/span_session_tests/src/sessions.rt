//! Sessions that call one after another.
use span_session_checks::{all_slots, steps, two_sessions};
use std::test::Fail;

/// Begin, Prepare, Decide and Apply of one transaction, each by a call of its own.
#[test]
fn step_by_step(rt: HostRuntime) -> Result<(), Fail> {
    steps::step_by_step(&rt, rt.alloc())
}

/// A commit over two slots; one that is refused at its second slot leaves nothing prepared; a trim and a risen floor.
#[test]
fn two_slots(rt: HostRuntime) -> Result<(), Fail> {
    steps::two_slots(&rt, rt.alloc())
}

/// One commit of a user in each of the sixteen slots, and commits that are refused at their second slot.
#[test]
fn sixteen_slots(rt: HostRuntime) -> Result<(), Fail> {
    all_slots::sixteen_slots(&rt, rt.alloc())
}

/// What two sessions are answered for their commits, and by their queries.
#[test]
fn commit_and_query(rt: HostRuntime) -> Result<(), Fail> {
    two_sessions::commit_and_query(&rt, rt.alloc())
}
