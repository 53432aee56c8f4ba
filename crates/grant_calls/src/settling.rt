//! A grant is taken up, and settled.
ghost use Rattle.std.specs.Prelude.{◌≡◌, ◌+◌, ◌^◌, ◌<◌, ◌≤◌, IfOk, OnErr};
ghost use Rattle.tables.specs.Core.{stream as stream_at, about_slot};
ghost use Rattle.tables.specs.Replies.{reply, asked};
ghost use Rattle.grant_calls.specs.Grants.{take_up_questions, take_up as take_up_call, settle_questions, settle as settle_call, Settleable};

use crate::finding::{find, is_covered};
use meaning::{Reason, Refusal};
use tables::{Core, Fate, Row, Stream, difference_fits, sum_fits};

/// The questions before a ticket is given out for a row. They answer the row, as the call's definition
/// has it.
fn ask_take_up(core: &Core, row: Row) -> Result<Row, Refusal>
    ensures { result ≡ asked (take_up_questions core.now row) (about_slot core.now row.slot) row }
{
    if !row.is_open() {
        return Err(core.slot_refusal(row.slot, Reason::GrantEnded));
    }
    if !is_covered(core, &row) {
        return Err(core.slot_refusal(row.slot, Reason::TablesDisagree));
    }
    if row.taken {
        return Err(core.slot_refusal(row.slot, Reason::AlreadyTaken));
    }
    Ok(row)
}

/// Marks a grant as taken up, and answers its number.
pub fn take_up(core: &mut Core, rows: &mut [Row], time: u64, grant: usize) -> Result<usize, Refusal>
    ensures plain { reply result core.new rows.new ≡ take_up_call core.old rows.old time grant }
    ensures refused { OnErr result ((core.new ≡ core.old) × (rows.new ≡ rows.old)) }
{
    let row = find(core, rows, time, grant)?;
    let _ = ask_take_up(core, row)?;
    rows[grant].taken = true;
    core.last = time;
    Ok(grant)
}

/// The questions before a row is settled, which give the record of its slot.
fn ask_settle(core: &Core, row: Row, sent: u64) -> Result<Stream, Refusal>
    ensures asked { result ≡ asked (settle_questions core.now row sent) (about_slot core.now row.slot) (stream_at core.now row.slot) }
    ensures facts { IfOk result (λ s. Settleable core.now row sent s) }
{
    if !row.is_open() {
        return Err(core.slot_refusal(row.slot, Reason::GrantEnded));
    }
    if !is_covered(core, &row) {
        return Err(core.slot_refusal(row.slot, Reason::TablesDisagree));
    }
    if sent > row.granted {
        return Err(core.slot_refusal(row.slot, Reason::SentTooMuch));
    }
    let stream = core.streams[row.slot];
    if stream.macroflow >= core.macroflows
        || !difference_fits(stream.reserved, row.granted)
        || !sum_fits(stream.outstanding, sent)
        || !sum_fits(stream.charged, sent)
    {
        return Err(core.slot_refusal(row.slot, Reason::TablesDisagree));
    }
    Ok(stream)
}

/// Ends a grant with the bytes that were sent: they are charged and outstanding, and the open bytes
/// are freed. A grant that is settled with 0 is returned.
pub fn settle(
    core: &mut Core,
    rows: &mut [Row],
    time: u64,
    grant: usize,
    sent: u64,
) -> Result<(), Refusal>
    ensures plain { reply result core.new rows.new ≡ settle_call core.old rows.old time grant sent }
    ensures refused { OnErr result ((core.new ≡ core.old) × (rows.new ≡ rows.old)) }
{
    let row = find(core, rows, time, grant)?;
    let _ = ask_settle(core, row, sent)?;
    let fate = if sent == 0 {
        Fate::Returned
    } else {
        Fate::Charged
    };
    let r = &mut rows[grant];
    r.fate = fate;
    r.sent = sent;
    r.ended = time;
    let s = &mut core.streams[row.slot];
    s.reserved -= row.granted;
    s.outstanding += sent;
    s.charged += sent;
    s.quiet = time;
    core.last = time;
    Ok(())
}
