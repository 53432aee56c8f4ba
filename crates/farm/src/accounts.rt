//! What the owners and the service crew read after the day: the ledger, the bill, the records'
//! fate.
ghost use Rattle.std.specs.Prelude.{◌≡◌, ◌-◌, Some, option_map, option_copied};
ghost use Rattle.std.specs.Fmt.{padded};
ghost use Rattle.std.specs.Result.{result_unwrap_or};
ghost use Rattle.tables.specs.Streams.{no_stream};
ghost use Rattle.stream_calls.specs.Calls.{standing};
ghost use Rattle.farm.specs.Words.{column_text, share_text};
ghost use Rattle.farm.specs.Accounts.{where_several, tenths};

use crate::words::{FateWord, OrHyphen, STREAMS, StreamName, TimeOfDay, path_name};
use manager::Manager;
use std::{fmt, io};
use tables::{Row, Stream};

/// What is printed of a day: the manager, the rows of its ledger, and the number of radio paths.
///
/// Where there is only one path, nothing that is printed names it.
#[derive(Clone, Copy)]
pub struct Accounts<'a> {
    pub manager: &'a Manager,
    pub rows: &'a [Row],
    pub paths: usize,
}

/// A column of a table that is left out where it has no text.
#[derive(Clone, Copy)]
struct Column(Option<&'static str>);

impl fmt::Display for Column {
    ghost output = { λ c. Some (column_text (option_copied c.0)) };

    ghost styled_output = { λ c spec.
        Some (column_text (option_map (padded spec) (option_copied c.0))) };

    fn fmt<W: fmt::Write>(&self, f: &mut fmt::Formatter<W>) -> fmt::Result {
        match self.0 {
            Some(text) => {
                f.pad(text)?;
                f.write_str("  ")
            }
            None => Ok(()),
        }
    }
}

/// The share of a part in a whole, in tenths of a percent, rounded down.
#[derive(Clone, Copy)]
struct Share(u64);

impl Share {
    fn of(part: u64, whole: u64) -> Share
        ensures { result.0 ≡ tenths part whole }
    {
        Share(part.saturating_mul(1_000).checked_div(whole).unwrap_or(0))
    }

    /// What this share has more than another.
    fn beyond(self, other: Share) -> Share
        ensures { result.0 ≡ self.0 - other.0 }
    {
        Share(self.0.saturating_sub(other.0))
    }
}

impl fmt::Display for Share {
    ghost output = { λ s. Some (share_text s.0) };

    fn fmt<W: fmt::Write>(&self, f: &mut fmt::Formatter<W>) -> fmt::Result {
        let percent = self.0 / 10;
        let rest = self.0 % 10;
        write!(f, "{percent:>3}.{rest}%")
    }
}

impl Accounts<'_> {
    /// Prints the ledger, the bill, and what the crew should know.
    pub fn show(&self, rt: &impl Print) -> io::Result<()> {
        self.ledger(rt)?;
        self.bill(rt)?;
        self.crew(rt)
    }

    /// The column for the paths, where there are several.
    fn path_column(&self, text: &'static str) -> Column
        ensures { option_copied result.0 ≡ where_several self.now.paths text.now }
    {
        Column((self.paths > 1).then_some(text))
    }

    /// The record of a slot of the farm.
    fn record(&self, slot: usize) -> Stream
        ensures { result ≡ result_unwrap_or (standing self.now.manager.now.core slot) no_stream }
    {
        self.manager.standing(slot).unwrap_or_default()
    }

    /// Prints the ledger: a line for each grant.
    fn ledger(&self, rt: &impl Print) -> io::Result<()> {
        let path = self.path_column("path");
        println!(rt; "")?;
        println!(rt; "The ledger")?;
        println!(rt;
            "grant  {path:<5}stream              bytes   sent  fate        issued     ended"
        )?;
        for (grant, row) in self.rows.iter().take(self.manager.issued()).enumerate() {
            self.show_row(rt, grant, row)?;
        }
        Ok(())
    }

    fn show_row(&self, rt: &impl Print, grant: usize, row: &Row) -> io::Result<()> {
        let path = self.path_column(path_name(row.macroflow));
        let name = StreamName(row.slot);
        let granted = row.granted;
        let sent = row.sent;
        let fate = FateWord(row.fate);
        let issued = TimeOfDay(row.issued);
        let ended = OrHyphen((!row.is_open()).then_some(TimeOfDay(row.ended)));
        println!(rt;
            "{grant:>5}  {path:<5}{name:<18}  {granted:>5}  {sent:>5}  {fate:<8}  {issued}  {ended:>8}"
        )
    }

    /// Prints the bill: the bytes charged to each stream, and its share. The shares add up to the
    /// whole: each is what the sum up to the stream has more than the sum before it.
    fn bill(&self, rt: &impl Print) -> io::Result<()> {
        println!(rt; "")?;
        println!(rt; "The bill")?;
        println!(rt; "stream              charged   share")?;
        let whole = (0..STREAMS.len())
            .map(|slot| self.record(slot).charged)
            .fold(0, u64::saturating_add);
        let mut before: u64 = 0;
        for (slot, name) in STREAMS.iter().enumerate() {
            let charged = self.record(slot).charged;
            let after = before.saturating_add(charged);
            let share = Share::of(after, whole).beyond(Share::of(before, whole));
            before = after;
            println!(rt; "{name:<18}  {charged:>7}  {share}")?;
        }
        let all = Share::of(before, whole);
        println!(rt; "all                 {whole:>7}  {all}")
    }

    /// Prints what the crew should know: whose records came through, and whose did not.
    fn crew(&self, rt: &impl Print) -> io::Result<()> {
        let path = self.path_column("path");
        println!(rt; "")?;
        println!(rt; "For the crew: bytes of records by what became of them")?;
        println!(rt;
            "stream              {path:<7}through   lost  abandoned  still out  open  waiting"
        )?;
        for (slot, name) in STREAMS.iter().enumerate() {
            let Stream {
                opened,
                macroflow,
                waiting,
                reserved,
                outstanding,
                received,
                lost,
                abandoned,
                ..
            } = self.record(slot);
            let path = self.path_column(if opened {
                path_name(macroflow)
            } else {
                "closed"
            });
            println!(rt;
                "{name:<18}  {path:<7}{received:>7}  {lost:>5}  {abandoned:>9}  {outstanding:>9}  {reserved:>4}  {waiting:>7}"
            )?;
        }
        Ok(())
    }
}
