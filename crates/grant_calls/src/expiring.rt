//! A grant that was not settled in time expires.
ghost use Rattle.std.specs.Prelude.{◌≡◌, ◌<◌, ◌≤◌, length, IfOk, Some, OnErr};
ghost use Rattle.meaning.specs.Refusals.{about_nothing};
ghost use Rattle.tables.specs.Core.{stream as stream_at, about_slot};
ghost use Rattle.tables.specs.Replies.{reply, asked};
ghost use Rattle.grant_calls.specs.Grants.{row as row_at, Endable, expire_questions, end_questions, expired_at, expire as expire_call};

use crate::finding::is_covered;
use least::least_of_first;
use meaning::{Reason, Refusal};
use tables::{Core, Due, Fate, Row, Stream, difference_fits};

/// The questions before anything is looked for.
fn ask_expire(core: &Core, rows: usize, time: u64) -> Result<(), Refusal>
    ensures { result ≡ asked (expire_questions core.now rows time) about_nothing tt }
{
    if rows != core.capacity {
        return Err(Reason::TablesDisagree.into());
    }
    if !core.is_timely(time) {
        return Err(Reason::NotTimely.into());
    }
    Ok(())
}

/// The questions before a row that is due ends, which give the record of its slot.
fn ask_end(core: &Core, row: Row) -> Result<Stream, Refusal>
    ensures asked { result ≡ asked (end_questions core.now row) (about_slot core.now row.slot) (stream_at core.now row.slot) }
    ensures facts { IfOk result (λ s. Endable core.now row s) }
{
    if !is_covered(core, &row) {
        return Err(core.slot_refusal(row.slot, Reason::TablesDisagree));
    }
    let stream = core.streams[row.slot];
    if stream.macroflow >= core.macroflows || !difference_fits(stream.reserved, row.granted) {
        return Err(core.slot_refusal(row.slot, Reason::TablesDisagree));
    }
    Ok(stream)
}

/// Ends a row that is due: its open bytes are freed.
fn end(core: &mut Core, rows: &mut [Row], time: u64, grant: usize) -> Result<Option<usize>, Refusal>
    requires { grant < length rows.old }
    ensures plain { reply result core.new rows.new ≡ expired_at core.old rows.old time (Some grant) }
    ensures refused { OnErr result ((core.new ≡ core.old) × (rows.new ≡ rows.old)) }
{
    let row = rows[grant];
    let _ = ask_end(core, row)?;
    let r = &mut rows[grant];
    r.fate = Fate::Expired;
    r.ended = time;
    let s = &mut core.streams[row.slot];
    s.reserved -= row.granted;
    core.last = time;
    Ok(Some(grant))
}

/// Ends the grant that is due: of the open ones whose deadline has come that with the earliest
/// deadline, then the lower slot, then the lower grant. Absent if none is due.
pub fn expire(core: &mut Core, rows: &mut [Row], time: u64) -> Result<Option<usize>, Refusal>
    ensures plain { reply result core.new rows.new ≡ expire_call core.old rows.old time }
    ensures refused { OnErr result ((core.new ≡ core.old) × (rows.new ≡ rows.old)) }
{
    ask_expire(core, rows.len(), time)?;
    match least_of_first(&Due { time }, rows, core.issued) {
        Some(grant) => end(core, rows, time, grant),
        None => {
            core.last = time;
            Ok(None)
        }
    }
}
