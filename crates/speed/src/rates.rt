//! Durations and rates.

use std::io;
use std::time::Instant;

/// How many nanoseconds have passed since then.
pub(crate) fn since(rt: &HostRuntime, start: Instant) -> io::Result<u64> {
    let took = start.elapsed(rt)?;
    let whole = took.as_secs().saturating_mul(1_000_000_000);
    Ok(whole.saturating_add(u64::from(took.subsec_nanos())))
}

/// How many there are in a second, where there were so many since then.
pub(crate) fn rate(rt: &HostRuntime, start: Instant, count: u64) -> io::Result<u64> {
    Ok(a_second(count, since(rt, start)?))
}

/// How many there are in a second, where so many took so many nanoseconds.
pub(crate) fn a_second(count: u64, nanoseconds: u64) -> u64 {
    count.saturating_mul(1_000_000_000) / nanoseconds.max(1)
}
