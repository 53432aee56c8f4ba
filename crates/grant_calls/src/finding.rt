//! The row of a grant.
ghost use Rattle.std.specs.Prelude.{◌≡◌, ◌<◌, length, IfOk, OnOk};
ghost use Rattle.grant_calls.specs.Grants.{row as row_at, found, is_covered};

use meaning::{Reason, Refusal};
use tables::{Core, Row};

/// The first questions about a grant, which give its row.
pub(crate) fn find(core: &Core, rows: &[Row], time: u64, grant: usize) -> Result<Row, Refusal>
    ensures found { result ≡ found core.now rows.now time grant }
    ensures within { OnOk result (grant < length rows.now) }
    ensures read { IfOk result (λ x. x ≡ row_at rows.now grant) }
{
    if rows.len() != core.capacity {
        return Err(Reason::TablesDisagree.into());
    }
    if !core.is_timely(time) {
        return Err(Reason::NotTimely.into());
    }
    if grant >= core.issued || grant >= rows.len() {
        return Err(Reason::NotIssued.into());
    }
    Ok(rows[grant])
}

/// Whether the slot of an open row is open, with open bytes covering the grant.
pub(crate) fn is_covered(core: &Core, row: &Row) -> bool
    ensures { result ≡ is_covered core.now row.now }
{
    core.streams
        .get(row.slot)
        .is_some_and(|stream| stream.opened && row.granted <= stream.reserved)
}
