// Bands written into a lent buffer.
#![tactic(auto)]

ghost use Rattle.std.specs.Prelude.{◌≡◌, [], ◌+◌, ◌-◌, ◌*◌, ◌≤◌, ◌<◌, true, ◌&&◌, leb, length};
ghost use Rattle.estimate.specs.Estimate.{LawfulTable};
ghost use Rattle.octets.specs.Fit.{Ready};
ghost use Rattle.octets.specs.Lift.{lift};
ghost use Rattle.template.specs.Pels.{pels_to, row_at, row_bytes};
ghost use Rattle.limits.specs.Limits.{max_width, max_rows, max_code, farthest, max_shifts};
ghost use Rattle.band.specs.Band.{last_row};
ghost use Rattle.writer.specs.Wrote.{BandWrote};
ghost use Rattle.row.specs.WrittenRow.{RowDone};
ghost use Rattle.writer.specs.RowByRow.{BandAt};

use estimate::Table;
use limits::{MAX_CODE, ROW};
use octets::{Coder, Engine};
use row::Run;
use template::{Band, Row};
use top::Top;

// What writing a band gives where there is room: n, S, the pels revisited, and the table and last row after it.
#[derive(Clone, Copy)]
pub struct Wrote {
    pub length: usize,
    pub shifts: u64,
    pub revisits: u64,
    pub table: Table,
    pub last: [u8; ROW],
}

// The rows of a band, the first under the page's last row.
pub fn write_rows<E: Engine>(band: Band, last: [u8; ROW], table: Table, out: &mut [u8]) -> Run
    requires { (1 ≤ band.rows) × LawfulTable table.entries }
    ensures { BandAt band.entry.width last band.entry.pels.now table.entries out.old
        (row_at band.entry.width band.entry.pels.now (band.entry.rows - 1)) result.table.entries result.coder
        out.new result.at result.revisits band.entry.rows }
{
    let begun = Run {
        coder: Coder::start(),
        table,
        at: 0,
        revisits: 0,
    };
    let above = Row {
        bytes: &last,
        width: band.width,
    };
    let mut run = row::write_row::<E>(band.row(0).bytes, above, begun, out);
    for y in 1..band.rows {
        run = row::write_row::<E>(band.row(y).bytes, band.row(y - 1), run, out);
    }
    run
}

// The last row of a band, in the room that a page has for it.
pub fn last_row(band: Band) -> [u8; ROW]
    requires { 1 ≤ band.rows }
    ensures { result ≡ last_row band.entry.width band.entry.rows band.entry.pels.now }
{
    let bytes = band.row(band.rows - 1).bytes;
    let mut row = [0u8; ROW];
    row[..bytes.len()].copy_from_slice(bytes);
    row
}

// No room: the code is longer than the buffer or than the limit.
pub fn has_room(n: usize, len: usize) -> bool
    ensures { result ≡ (leb n len && leb n max_code) }
{
    n <= len && n <= MAX_CODE
}

// A band into a lent buffer, by any engine: its code in front and the rest kept, or all zero where there is no room.
pub fn write_by<E: Engine>(
    table: Table,
    last: [u8; ROW],
    band: Band,
    out: &mut [u8],
) -> Option<Wrote>
    requires { (1 ≤ band.rows) × LawfulTable table.entries }
    ensures { BandWrote band.entry.width band.entry.rows table last band.entry.pels.now out.old result out.new }
{
    let run = write_rows::<E>(band, last, table, out);
    let shifts = run.coder.interval.count;
    let end = run.coder.finish();
    let bytes = end.as_slice();
    let n = store::put_last(out, run.at, bytes) - 1;
    if !has_room(n, out.len()) {
        store::clear(out);
        return None;
    }
    Some(Wrote {
        length: n,
        shifts,
        revisits: run.revisits,
        table: run.table,
        last: last_row(band),
    })
}

// The same by the desk's engine: the second, whose code string points at the top of the interval while a row is coded.
// The first writes the same, a little slower (docs/DECISIONS.md).
pub fn write_band(table: Table, last: [u8; ROW], band: Band, out: &mut [u8]) -> Option<Wrote>
    requires { (1 ≤ band.rows) × LawfulTable table.entries }
    ensures { BandWrote band.entry.width band.entry.rows table last band.entry.pels.now out.old result out.new }
{
    write_by::<Top>(table, last, band, out)
}
