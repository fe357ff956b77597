// Bands read back: the reader is the writer, told each pel by the code.
#![tactic(auto)]

ghost use Rattle.std.specs.Prelude.{◌≡◌, ◌&&◌, [], ◌+◌, ◌-◌, ◌*◌, ◌%◌, ◌≤◌, ◌<◌, ◌^◌, eqb, length};
ghost use Rattle.limits.specs.Limits.{max_width, max_rows, farthest, max_shifts};
ghost use Rattle.estimate.specs.Estimate.{LawfulTable};
ghost use Rattle.template.specs.Pels.{row_bytes, pels_to};
ghost use Rattle.template.specs.White.{Under};
ghost use Rattle.octets.specs.Fit.{Ready};
ghost use Rattle.octets.specs.Lift.{lift, bytes_of};
ghost use Rattle.engine.specs.Followed.{match_at, matches};
ghost use Rattle.reader.specs.RowRead.{LineRead};
ghost use Rattle.reader.specs.Reads.{BandRead};
ghost use Rattle.reader.specs.Found.{BandFound};

use estimate::Table;
use limits::ROW;
use octets::{Coder, Engine, Settled};
use sight::View;
use template::{Row, Window};
use top::Top;

// Where a reading stands: the writer's registers, the table, the bytes settled and the pels revisited so far, whether
// each byte agreed with the code, and what is in sight. It goes on the same where one did not.
#[derive(Clone, Copy)]
pub struct Progress {
    pub coder: Coder,
    pub table: Table,
    pub at: usize,
    pub revisits: u64,
    pub good: bool,
    pub view: View,
}

// A row read, in the room that a page has for its last row, and where the reading stands then.
#[derive(Clone, Copy)]
pub struct Line {
    pub row: [u8; ROW],
    pub reading: Progress,
}

// Whether a settled byte is the code's; the very first, which is no part of the code, always is.
pub fn match_one(code: &[u8], at: usize, b: u8) -> bool
    ensures { result ≡ match_at code.now at b }
{
    at == 0 || code.get(at - 1) == Some(&b)
}

// Whether the bytes that a pel settled are the code's too.
pub fn match_settled(code: &[u8], at: usize, bytes: Settled, good: bool) -> bool
    requires { at + length (bytes_of bytes) ≤ farthest }
    ensures { result ≡ (good && matches code.now at (bytes_of bytes)) }
{
    match bytes {
        Settled::Nothing => good,
        Settled::One(b) => good && match_one(code, at, b),
        Settled::Two(b, c) => good && match_one(code, at, b) && match_one(code, at + 1, c),
    }
}

// A pel at its place in a byte.
pub fn pel_in_byte(p: u8, x: usize) -> u8
    requires { p ≤ 1 }
    ensures { (result ≡ p * 2 ^ (7 - x % 8)) × (result ≤ 128) }
{
    p << (7 - x % 8)
}

// Where the run at x ends, as far as the row above tells: as it is known, or by a look along that row.
fn run_end(above: Row, x: usize, known: usize) -> usize
    requires { (above.width ≤ max_width) × (x < above.width) × (known ≤ above.width)
        × Under (pels_to above.bytes.now above.width) x known }
    ensures { (x ≤ result) × (result ≤ above.entry.width)
        × Under (pels_to above.entry.bytes.now above.entry.width) x result }
{
    if x < known {
        return known;
    }
    above.under_to(x)
}

// One row, under the row above it. By the second engine, and with the context as one register: the loop has more
// numbers at hand than a processor has registers, and so fewer of them go through memory.
pub fn read_row(code: &[u8], above: Row, start: Progress) -> Line
    requires { (above.width ≤ max_width) × (1 ≤ above.width)
        × LawfulTable start.table.entries × Ready (lift start.coder [])
        × (start.coder.interval.count + 12 * max_width ≤ max_shifts) × (start.at + 2 * max_width ≤ farthest)
        × (start.revisits ≤ start.coder.interval.count)
        × (start.view.at ≤ length code.now) × (start.view.look ≤ 7) × (start.view.x < 2 ^ 32) }
    ensures { LineRead above.entry.width (pels_to above.entry.bytes.now above.entry.width) code.now start result }
{
    let width = above.width;
    let mut coder = Top::above(start.coder);
    let mut table = start.table;
    let mut at = start.at;
    let mut revisits = start.revisits;
    let mut good = start.good;
    let mut view = start.view;
    let mut cx = Window::start(above).context();
    let mut row = [0u8; ROW];
    let mut end: usize = 0;
    let mut x: usize = 0;
    // No `for`: a run of still pels moves x by more than one.
    while x < width {
        let white = table.entries[0];
        if row::starts_run(white, cx, 0, width) {
            end = run_end(above, x, end);
            let q = estimate::row_of(white);
            let n = interval::fits(end - x, q, view.room(coder.width));
            if n != 0 {
                let size = (n as u64) * q;
                coder = coder.still(size);
                view = view.still(size);
                x += n;
                cx = Window::white(above, x).context();
                continue;
            }
        }
        let e = table.entries[cx];
        let told = sight::read_pel(coder, view, code, e);
        coder = told.pel.coder;
        view = told.view;
        if let Some(moved) = told.pel.moved {
            revisits += 1;
            table.entries[cx] = moved.entry;
            good = match_settled(code, at, moved.bytes, good);
            at += moved.bytes.len();
        }
        cx = Window::of(cx).slide(above, x, told.p).context();
        row[x / 8] += pel_in_byte(told.p, x);
        x += 1;
    }
    Line {
        row,
        reading: Progress {
            coder: coder.bottom(),
            table,
            at,
            revisits,
            good,
            view,
        },
    }
}

// What reading a band gives: the bytes of all rows, S, the pels revisited, and the table and last row after it.
#[derive(Clone, Copy)]
pub struct Read {
    pub length: usize,
    pub shifts: u64,
    pub revisits: u64,
    pub table: Table,
    pub last: [u8; ROW],
}

// Why a band is not read: the buffer is too short for its rows, or no band was written as that code.
#[derive(Clone, Copy)]
pub enum Fault {
    NoRoom,
    Damaged,
}

// The rows of a band: where the reading stands, and the last of them.
#[derive(Clone, Copy)]
pub struct Rows {
    pub reading: Progress,
    pub last: [u8; ROW],
}

// The rows of a band into the front of the buffer, the first under the page's last row.
pub fn read_rows(
    table: Table,
    last: [u8; ROW],
    width: usize,
    rows: usize,
    code: &[u8],
    out: &mut [u8],
) -> Rows
    requires { (1 ≤ width) × (width ≤ max_width) × (rows ≤ max_rows) × (rows * row_bytes width ≤ length out.old)
        × LawfulTable table.entries }
    ensures { BandRead width last code.now table.entries out.old result.last result.reading
        out.new rows }
{
    let bytes = template::row_bytes(width);
    let mut above = last;
    let mut reading = Progress {
        coder: Coder::start(),
        table,
        at: 0,
        revisits: 0,
        good: true,
        view: View::start(code),
    };
    for y in 0..rows {
        let over = Row {
            bytes: &above,
            width,
        };
        let line = read_row(code, over, reading);
        above = line.row;
        reading = line.reading;
        store::put_row(out, y * bytes, &above[..bytes]);
    }
    Rows {
        reading,
        last: above,
    }
}

// Whether the last bytes are the code's too.
pub fn match_last(code: &[u8], at: usize, bytes: &[u8], good: bool) -> bool
    requires { at + length bytes.now ≤ farthest }
    ensures { result ≡ (good && matches code.now at bytes.now) }
{
    let mut same = good;
    for (i, b) in bytes.iter().enumerate() {
        same = same && match_one(code, at + i, *b);
    }
    same
}

// The bytes agreed, and there are as many as the code has.
pub fn as_long(same: bool, n: usize, len: usize) -> bool
    ensures { result ≡ (same && eqb n len) }
{
    same && n == len
}

// A band back into a lent buffer: its rows in front and the rest kept; all zero where there is no room, or where no
// band was written so.
pub fn read_band(
    table: Table,
    last: [u8; ROW],
    width: usize,
    rows: usize,
    code: &[u8],
    out: &mut [u8],
) -> Result<Read, Fault>
    requires { (1 ≤ width) × (width ≤ max_width) × (1 ≤ rows) × (rows ≤ max_rows) × LawfulTable table.entries }
    ensures { BandFound width rows table last code.now out.old result out.new }
{
    let length = rows * template::row_bytes(width);
    if out.len() < length {
        store::clear(out);
        return Err(Fault::NoRoom);
    }
    let done = read_rows(table, last, width, rows, code, out);
    let reading = done.reading;
    let end = reading.coder.finish();
    let same = match_last(code, reading.at, end.as_slice(), reading.good);
    if !as_long(same, reading.at + end.count - 1, code.len()) {
        store::clear(out);
        return Err(Fault::Damaged);
    }
    let last = done.last;
    Ok(Read {
        length,
        shifts: reading.coder.interval.count,
        revisits: reading.revisits,
        table: reading.table,
        last,
    })
}
