//! A contest of both schedulers over a handful of turbines' streams that always wait.
use meaning::Scheduler;
use std::io;

/// A stream in the contest: its slot, its weight, and what it carries.
#[derive(Clone, Copy)]
struct Entrant {
    slot: usize,
    weight: u64,
    name: &'static str,
}

const ENTRANTS: [Entrant; 5] = [
    Entrant {
        slot: 0,
        weight: 4,
        name: "turbine 1 pitch",
    },
    Entrant {
        slot: 1,
        weight: 1,
        name: "turbine 1 bearing",
    },
    Entrant {
        slot: 8,
        weight: 2,
        name: "turbine 2 pitch",
    },
    Entrant {
        slot: 16,
        weight: 1,
        name: "turbine 3 brake",
    },
    Entrant {
        slot: 24,
        weight: 1,
        name: "turbine 4 bearing",
    },
];

/// The rows of the table, and the picks in each.
const ROWS: usize = 4;

const PICKS: usize = 18;

/// How one stream fares: how often it was served, how many picks have gone to others since, and the
/// most that went to others before it was served.
#[derive(Clone, Copy)]
struct Fare {
    entrant: Entrant,
    served: u64,
    since: u64,
    longest: u64,
}

impl Fare {
    fn new(entrant: Entrant) -> Fare {
        Fare {
            entrant,
            served: 0,
            since: 0,
            longest: 0,
        }
    }

    /// A pick went to this slot.
    fn note(&mut self, picked: usize) {
        if picked == self.entrant.slot {
            self.served = self.served.saturating_add(1);
            self.since = 0;
        } else {
            self.since = self.since.saturating_add(1);
            self.longest = self.longest.max(self.since);
        }
    }
}

/// Lets all streams wait, picks, and prints who was served when, and how long each had to wait.
pub fn hold<S: Scheduler>(
    rt: &impl Print,
    name: &str,
    bound: u64,
    scheduler: &mut S,
) -> io::Result<()> {
    println!(rt; "")?;
    println!(rt; "{name}: the slots served, in their order")?;
    for entrant in &ENTRANTS {
        scheduler.raise(entrant.slot, entrant.weight);
    }
    let mut fares = ENTRANTS.map(Fare::new);
    for _row in 0..ROWS {
        for _pick in 0..PICKS {
            if let Some(slot) = scheduler.pick() {
                print!(rt; "{slot:>3}")?;
                for fare in &mut fares {
                    fare.note(slot);
                }
            }
        }
        println!(rt; "")?;
    }
    show(rt, bound, &fares)
}

fn show(rt: &impl Print, bound: u64, fares: &[Fare]) -> io::Result<()> {
    println!(rt; "slot  stream              weight  served  longest wait  bound")?;
    for fare in fares {
        let Fare {
            entrant: Entrant { slot, weight, name },
            served,
            longest,
            ..
        } = *fare;
        println!(rt; "{slot:>4}  {name:<18}  {weight:>6}  {served:>6}  {longest:>12}  {bound:>5}")?;
    }
    Ok(())
}
