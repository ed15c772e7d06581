//! Counters that stay at their last value.

ghost use Rattle.std.specs.Prelude.{◌≡◌};
ghost use Rattle.xd_base.specs.Transfers.{next_count};

/// One more, or the same at the type's end.
pub fn next_count(count: u64) -> u64
    ensures { result ≡ next_count count }
{
    count.saturating_add(1)
}
