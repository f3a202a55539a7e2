//! Test of the guard with worked values.

ghost use Rattle.std.specs.Prelude.{◌+◌, ◌<◌, ◌≤◌, ◌^◌};
ghost use Rattle.xet_fragmentation.specs.Fragmentation.{chunks_in};

use crate::DefragPrevention;
use crate::laws::chunks_are_bounded;
use std::test::Fail;
use xet_cut::{LimitSettings, Limits, gear_table};

/// Adds a range in two parts. Returns whether a run of `minimum` chunks may be used then, and one chunk fewer.
fn answers(guard: &mut DefragPrevention, first: u8, more: u8, minimum: u8) -> (bool, bool)
    requires few { chunks_in guard.old < 2 ^ 32 }
    ensures few { chunks_in guard.new ≤ chunks_in guard.old + 510 }
{
    chunks_are_bounded();
    guard.add_range_to_fragmentation_estimate(u64::from(first));
    guard.increment_last_range_in_fragmentation_estimate(u64::from(more));
    let shorter = guard.allow_dedup_on_next_range(u64::from(minimum.saturating_sub(1)));
    (guard.allow_dedup_on_next_range(u64::from(minimum)), shorter)
}

#[test]
fn rejects_runs_below_the_mean_range(rt: HostRuntime) -> Result<(), Fail> {
    let limits = Limits::new(LimitSettings {
        guard_window: 2,
        ..LimitSettings::shown(gear_table(0))
    })?;
    let mut guard = DefragPrevention::new(rt.alloc(), &limits)?;
    for (first, more, minimum) in [
        (1, 2, 0),
        (3, 0, 3),
        (5, 0, 4),
        (4, 3, 6),
        (9, 0, 0),
        (1, 0, 0),
        (5, 0, 3),
    ] {
        assert_eq!(rt;
            answers(&mut guard, first, more, minimum),
            (true, minimum == 0),
            "after {first} and {more}"
        );
    }
    Ok(())
}
