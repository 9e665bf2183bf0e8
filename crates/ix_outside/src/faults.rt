//! Calls that are to fail, and the counts of calls and of faults, for the implementations in memory.
ghost use Rattle.std.specs.Prelude.{◌≡◌, ◌+◌, ◌-◌, ◌^◌, ◌≤◌, ◌↔◌, min, Contains, IsTrue};
ghost use Rattle.ix_outside.specs.Outside.{Rose};

/// Whether that call is to fail.
pub(crate) fn is_to_fail(fails: &[u64], call: u64) -> bool
    ensures { IsTrue result ↔ Contains fails.now call }
{
    fails.contains(&call)
}

/// A count of faults after one more.
pub fn raised(count: u64) -> u64
    ensures { Rose count result }
{
    if count < u64::MAX { count + 1 } else { count }
}

/// A number of calls after one more, which stays at its last value.
pub(crate) fn after_call(calls: u64) -> u64
    ensures count { result ≡ min (calls + 1) (2 ^ 64 - 1) }
    ensures grows { calls ≤ result }
{
    if calls < u64::MAX { calls + 1 } else { calls }
}
