//! Sessions on several threads, and queries that several workers scan.
use span_thread_checks::{callers, closing, groups, scans, upkeep, workers};
use std::test::Fail;

/// Two workers scan at once; one, two and eight give the same rows; a refusal ends all of them.
#[test]
fn two_workers(rt: HostRuntime) -> Result<(), Fail> {
    workers::two_workers(&rt, rt.alloc())
}

/// Sixteen threads commit ten users each; then each session sees all of them.
#[test]
fn sixteen_callers(rt: HostRuntime) -> Result<(), Fail> {
    callers::sixteen_callers(&rt, rt.alloc())
}

/// Queries that a scan refuses are closed.
#[test]
fn refused_scans(rt: HostRuntime) -> Result<(), Fail> {
    closing::refused_scans(&rt, rt.alloc())
}

/// Two scans are under way at once, each with the lock of its own slot held.
#[test]
fn two_scans_at_once(rt: HostRuntime) -> Result<(), Fail> {
    scans::two_scans_at_once(&rt, rt.alloc())
}

/// One thread is answered the same each time, while another cuts slots and trims them.
#[test]
fn answers_beside_upkeep(rt: HostRuntime) -> Result<(), Fail> {
    upkeep::answers_beside_upkeep(&rt, rt.alloc())
}

/// The groups of many rows in sixteen slots, by one worker and by eight.
#[test]
fn many_groups(rt: HostRuntime) -> Result<(), Fail> {
    groups::many_groups(&rt, rt.alloc())
}
