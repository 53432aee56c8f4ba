//! Numbers that a table may hold: those below 2^63.
ghost use Rattle.std.specs.Prelude.{◌≡◌, ◌+◌, ◌-◌};
ghost use Rattle.tables.specs.Numbers.{fits};

/// The first number that a table may not hold.
const LIMIT: u64 = 1 << 63;

/// Whether a table may hold a sum.
pub fn sum_fits(a: u64, b: u64) -> bool
    ensures { result ≡ fits (a + b) }
{
    a.checked_add(b).is_some_and(|sum| sum < LIMIT)
}

/// Whether a table may hold a difference, which stops at 0.
pub fn difference_fits(a: u64, b: u64) -> bool
    ensures { result ≡ fits (a - b) }
{
    a.saturating_sub(b) < LIMIT
}
