// A row written: white runs at once, other pels one by one.
#![tactic(auto)]

ghost use Rattle.std.specs.Prelude.{◌≡◌, [], ◌+◌, ◌*◌, ◌%◌, ◌≤◌, ◌<◌, true, length};
ghost use Rattle.estimate.specs.Estimate.{row_of, LawfulEntry, LawfulTable};
ghost use Rattle.octets.specs.Fit.{Ready};
ghost use Rattle.octets.specs.Lift.{lift, bytes_of};
ghost use Rattle.template.specs.Pels.{pels_to};
ghost use Rattle.template.specs.White.{Clear};
ghost use Rattle.limits.specs.Limits.{max_width, farthest, max_shifts};
ghost use Rattle.store.specs.Store.{stores};
ghost use Rattle.row.specs.AnyEngine.{Pelled, still_pel, moved_pel};
ghost use Rattle.row.specs.WrittenRow.{RowDone};

use estimate::Table;
use octets::{Coder, Engine, Put, Settled};
use template::{Row, Window};

// The entry of index 19, whose Q is 71 hex. Below it runs are too short to be looked for.
const LEARNED: u8 = 38;

// Two bytes are no wide row: a look along them costs what it saves.
const WIDE: usize = 17;

// What a pel that shifted moved: its context's entry, and the bytes that it settled.
#[derive(Clone, Copy)]
pub struct Moved {
    pub entry: u8,
    pub bytes: Settled,
}

// What a pel gives: the registers, and what it moved. Its context's estimate is revisited only where it shifted.
#[derive(Clone, Copy)]
pub struct Pel<E> {
    pub coder: E,
    pub moved: Option<Moved>,
}

// Where a band stands: the registers, the table, the bytes settled and the pels revisited so far. How much may still
// come stands in the contracts, since it changes from row to row.
#[derive(Clone, Copy)]
pub struct Run {
    pub coder: Coder,
    pub table: Table,
    pub at: usize,
    pub revisits: u64,
}

// An expected pel with no shift: most are such.
pub fn still_pel<E: Engine>(coder: E, q: u64) -> Pel<E>
    requires { E.CanStill q coder }
    ensures { result ≡ still_pel (E.after_still q coder) }
{
    Pel {
        coder: coder.still(q),
        moved: None,
    }
}

// A pel that shifted, and its context's next entry.
pub fn moved_pel<E: Engine>(v: Put<E>, entry: u8) -> Pel<E>
    ensures { result ≡ moved_pel v entry }
{
    let bytes = v.bytes;
    Pel {
        coder: v.coder,
        moved: Some(Moved { entry, bytes }),
    }
}

// One pel in the context whose entry is e: the expected one, or the other. Each has its own way, so that neither asks
// again which it is.
#[inline(always)]
fn put_pel<E: Engine>(coder: E, e: u8, expected: bool) -> Pel<E>
    requires { Ready (lift (E.bottom_of coder) []) × E.Sound coder × LawfulEntry e
        × ((E.bottom_of coder).interval.count < max_shifts) }
    ensures { Pelled E.bottom_of E.Sound coder e expected result }
{
    let q = estimate::row_of(e);
    if expected {
        if 0x1000 + q <= coder.width() {
            return still_pel(coder, q);
        }
        let v = coder.pel(q, true);
        return moved_pel(v, estimate::next_entry(e, true));
    }
    let v = coder.pel(q, false);
    moved_pel(v, estimate::next_entry(e, false))
}

// The bytes that a pel settled.
pub fn put_settled(out: &mut [u8], at: usize, bytes: Settled) -> usize
    requires { at + length (bytes_of bytes) ≤ farthest }
    ensures { (result ≡ at + length (bytes_of bytes)) × (out.new ≡ stores out.old at (bytes_of bytes)) }
{
    match bytes {
        Settled::Nothing => at,
        Settled::One(b) => store::put(out, at, b),
        Settled::Two(b, c) => {
            let next = store::put(out, at, b);
            store::put(out, next, c)
        }
    }
}

// Whether a white run may begin: context 0, which expects white and has learned it so well that the next pels hardly
// shift, in a row that is wide enough to be looked along.
pub fn starts_run(white: u8, cx: usize, p: u8, width: usize) -> bool
    requires { p ≤ 1 }
    ensures { result ≡ true → (white % 2 ≡ 0) × (cx ≡ 0) }
{
    if white < LEARNED {
        return false;
    }
    if cx != 0 {
        return false;
    }
    if width < WIDE {
        return false;
    }
    p + white % 2 == 0
}

// Where the run at x ends: as it is known, or by a look along both rows.
pub fn run_end(row: &[u8], above: Row, x: usize, known: usize) -> usize
    requires { (above.width ≤ max_width) × (above.width ≤ 8 * length row.now) × (x < above.width)
        × Clear row.now (pels_to above.bytes.now above.width) above.width x known }
    ensures { (x ≤ result)
        × Clear row.now (pels_to above.entry.bytes.now above.entry.width) above.entry.width x result }
{
    if x < known {
        return known;
    }
    above.run_to(row, x)
}

// One row, under the row above it, which has the width of both. The string is at the engine's place while the row is
// coded, and at the bottom before and after.
pub fn write_row<E: Engine>(row: &[u8], above: Row, start: Run, out: &mut [u8]) -> Run
    requires { (above.width ≤ max_width) × (above.width ≤ 8 * length row.now) × (1 ≤ above.width)
        × LawfulTable start.table.entries × Ready (lift start.coder [])
        × (start.coder.interval.count + 12 * max_width ≤ max_shifts) × (start.at + 2 * max_width ≤ farthest)
        × (start.revisits ≤ start.coder.interval.count) }
    ensures { RowDone above.entry.width (pels_to above.entry.bytes.now above.entry.width) row.now start.table.entries
        start.coder out.old start.at start.revisits result.table.entries result.coder
        out.new result.at result.revisits }
{
    let width = above.width;
    let mut coder = E::above(start.coder);
    let mut table = start.table;
    let mut at = start.at;
    let mut revisits = start.revisits;
    let mut window = Window::start(above);
    let mut end: usize = 0;
    let mut x: usize = 0;
    // A run moves by more than one pel.
    while x < width {
        let p = template::pel_at(row, x);
        let cx = 4 * window.above + window.this;
        let white = table.entries[0];
        if starts_run(white, cx, p, width) {
            end = run_end(row, above, x, end);
            let q = estimate::row_of(white);
            let n = interval::fits(end - x, q, coder.width() - 0x1000);
            if n != 0 {
                let size = (n as u64) * q;
                coder = coder.still(size);
                x += n;
                window = Window::white(above, x);
                continue;
            }
        }
        let e = table.entries[cx];
        let v = put_pel(coder, e, p == e % 2);
        coder = v.coder;
        if let Some(moved) = v.moved {
            revisits += 1;
            table.entries[cx] = moved.entry;
            at = put_settled(out, at, moved.bytes);
        }
        window = window.slide(above, x, p);
        x += 1;
    }
    Run {
        coder: coder.bottom(),
        table,
        at,
        revisits,
    }
}
