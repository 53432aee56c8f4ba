//! What a round robin does.
ghost use Rattle.std.specs.Prelude.{◌≡◌};
ghost use Rattle.meaning.specs.Below.{any_below};
ghost use Rattle.schedulers.specs.Rule.{next_waiting as rule_next};
ghost use Rattle.schedulers.specs.Scheduling.{fresh, round_robin};

use super::RoundRobin;
use crate::state::RoundRobinState;

impl<const N: usize> RoundRobin<N> {
    /// No place waits, there is no credit, and it is the turn of place N - 1, so that the first search begins at place 0.
    pub fn new() -> Self
        ensures { result ≡ fresh N }
    {
        RoundRobin {
            state: RoundRobinState {
                turn: N.saturating_sub(1),
                credit: 0,
                weights: [0; N],
            },
        }
    }

    /// Whether the place waits.
    pub fn is_waiting(&self, place: usize) -> bool
        ensures { result ≡ (round_robin N).waits self.now place }
    {
        place < N && 0 < self.state.weights[place]
    }

    /// Whether any place waits.
    pub fn is_any_waiting(&self) -> bool
        ensures { result ≡ any_below N ((round_robin N).waits self.now) }
    {
        self.next_waiting().is_some()
    }

    /// The place begins to wait, with this weight. Nothing changes where it waits already, where there is no such
    /// place, and where the weight is not one of 1 to 8. The turn and the credit stay.
    pub fn raise(&mut self, place: usize, weight: u64)
        ensures { self.new ≡ (round_robin N).raised self.old place weight }
    {
        if place < N && !self.is_waiting(place) && (1..=8).contains(&weight) {
            self.state.weights[place] = weight;
        }
    }

    /// The place waits no more. Nothing changes where it does not wait, and the turn and the credit stay.
    pub fn lower(&mut self, place: usize)
        ensures { self.new ≡ (round_robin N).lowered self.old place }
    {
        if place < N {
            self.state.weights[place] = 0;
        }
    }

    /// The place whose turn it is, or `None` where no place waits.
    ///
    /// The turn's place is picked again while it waits and has credit left, and each such pick takes one credit.
    /// Otherwise the next place that waits becomes the turn. This is the first of as many picks as its weight says, so
    /// its credit is its weight less 1.
    pub fn pick(&mut self) -> Option<usize>
        ensures answer { result ≡ (round_robin N).chosen self.old }
        ensures after { self.new ≡ (round_robin N).turned self.old }
    {
        let turn = self.state.turn;
        if self.is_waiting(turn) && 0 < self.state.credit {
            self.state.credit -= 1;
            return Some(turn);
        }
        let place = self.next_waiting()?;
        self.state.turn = place;
        self.state.credit = self.state.weights[place] - 1;
        Some(place)
    }

    /// The first place that waits after the turn, upward and round, the turn itself last.
    fn next_waiting(&self) -> Option<usize>
        ensures { result ≡ rule_next self.now.state }
    {
        let first = self.state.turn + 1;
        (first..N).chain(0..first).find(
            |place| -> bool
                ensures { result ≡ (round_robin N).waits self.entry.now place.now }
            { self.is_waiting(*place) },
        )
    }
}
