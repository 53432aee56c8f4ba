//! One search for the first record by a total order, over a lent slice.
#![tactic(auto)]

ghost use Rattle.std.specs.Prelude.{◌≡◌, ℕ, suc, ◌<◌, Bool, true, length, take, slice_index_or};
ghost use Rattle.least.specs.Order.{Order, Least, first_least};

/// Who of some records takes part in a search, and in which order they come.
///
/// The order is total: of two records one comes no later than the other, and what comes no later
/// than a record that comes no later than a third comes no later than the third.
pub trait Ranking<T> {
    ghost takes: { Self → T → Bool };

    ghost upto: { Self → T → T → Bool };

    /// Whether a record takes part.
    fn takes_part(&self, one: &T) -> bool
        ensures { result ≡ takes self.now one.now };

    /// Whether the first record comes no later than the second.
    fn no_later(&self, first: &T, second: &T) -> bool
        ensures { result ≡ upto self.now first.now second.now };

    ghost order: { (q : Self) → Order (upto q) };
}

/// The best of the first `i` records, and then of one record more.
fn step<T, R: Ranking<T>>(
    by: &R,
    records: &[T],
    i: usize,
    one: &T,
    best: Option<usize>,
) -> Option<usize>
    requires within { i < length records.now }
    requires read { one.now ≡ slice_index_or records.now i one.now }
    requires so_far { Least (R.takes by.now) (R.upto by.now) records.now i best }
    ensures { Least (R.takes by.now) (R.upto by.now) records.now (suc i) result }
{
    match best {
        _ if !by.takes_part(one) => best,
        Some(b) if by.no_later(&records[b], one) => best,
        _ => Some(i),
    }
}

/// The place of the first record, by the order, of those that take part; among equals the earlier
/// place. Absent exactly when no record takes part.
pub fn least<T, R: Ranking<T>>(by: &R, records: &[T]) -> Option<usize>
    ensures least { Least (R.takes by.now) (R.upto by.now) records.now (length records.now) result }
    ensures place { result ≡ first_least (R.takes by.now) (R.upto by.now) records.now }
{
    let mut best = None;
    for (i, one) in records.iter().enumerate() {
        best = step(by, records, i, one, best);
    }
    best
}

/// The same among the first `count` records, or among all where there are fewer.
pub fn least_of_first<T, R: Ranking<T>>(by: &R, records: &[T], count: usize) -> Option<usize>
    ensures least { Least (R.takes by.now) (R.upto by.now) (take count records.now) (length (take count records.now)) result }
    ensures place { result ≡ first_least (R.takes by.now) (R.upto by.now) (take count records.now) }
{
    least(by, &records[..count.min(records.len())])
}
