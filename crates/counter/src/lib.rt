// The calls over a lent desk, with numbers for what is asked. Other languages see these calls, as `counter_c` exports
// them, and no others: they hand over no records.
#![tactic(auto)]

ghost use Rattle.std.specs.Prelude.{◌≡◌, []};
ghost use Rattle.desk.specs.Places.{empty_desk};
ghost use Rattle.parts.specs.Parts.{desk_of, Whole};
ghost use Rattle.desk.specs.Calls.{opens, writes, reads, closes, abandons, drops, looks};
ghost use Rattle.parts.specs.Replies.{Serves};
ghost use Rattle.desk.specs.Asked.{as_key, asked_to, to_write, to_read, ask_of};
ghost use Rattle.counter.specs.Layout.{desk_bytes};

use desk::{Answer, Ask, Direction, Key, Opening};
use limits::{CONTEXTS, PAGES, PLACES, ROW};
use parts::Parts;

// The bytes of a desk: a page has a line of 32, a table and a row; a place has a line of 24 and a table.
const DESK_BYTES: usize = PAGES * (32 + CONTEXTS + ROW) + PLACES * (24 + CONTEXTS);

// How many bytes a desk has.
pub fn siftpebble_desk_bytes() -> usize
    ensures { result ≡ desk_bytes }
{
    DESK_BYTES
}

// An empty desk: no page is open, no class has a table.
pub fn siftpebble_empty(desk: &mut Parts)
    ensures { (desk_of desk.new ≡ empty_desk) × Whole desk.new }
{
    *desk = Parts::new();
}

// What an open is asked.
fn asked_to(school: u64, class: u64, direction: Direction, width: u64) -> Opening
    ensures { result ≡ asked_to school class direction width }
{
    Opening {
        key: Key { school, class },
        direction,
        width,
    }
}

// Open, to write: working table = the class's learned table, or the fresh one; last row white. (An exported function
// takes no enum, so an open is two calls.)
pub fn siftpebble_open_write(desk: &mut Parts, school: u64, class: u64, width: u64) -> Answer
    ensures { Serves desk.old (opens (to_write school class width)) result desk.new [] }
{
    let ask = asked_to(school, class, Direction::Write, width);
    Answer::from(opening::open(desk, ask))
}

// Open, to read: working table = the class's learned table, or the fresh one; last row white.
pub fn siftpebble_open_read(desk: &mut Parts, school: u64, class: u64, width: u64) -> Answer
    ensures { Serves desk.old (opens (to_read school class width)) result desk.new [] }
{
    let ask = asked_to(school, class, Direction::Read, width);
    Answer::from(opening::open(desk, ask))
}

// Close: the working table becomes the class's learned table. The page is gone.
pub fn siftpebble_close(desk: &mut Parts, school: u64, class: u64) -> Answer
    ensures { Serves desk.old (closes (as_key school class)) result desk.new [] }
{
    Answer::from(closing::close(desk, Key { school, class }))
}

// Abandon: the page is gone, the learned table is as before; a place that was only reserved is free.
pub fn siftpebble_abandon(desk: &mut Parts, school: u64, class: u64) -> Answer
    ensures { Serves desk.old (abandons (as_key school class)) result desk.new [] }
{
    Answer::from(closing::abandon(desk, Key { school, class }))
}

// Drop: the class's learned table is forgotten.
pub fn siftpebble_drop(desk: &mut Parts, school: u64, class: u64) -> Answer
    ensures { Serves desk.old (drops (as_key school class)) result desk.new [] }
{
    Answer::from(tables::forget(desk, Key { school, class }))
}

// Look: the 128 bytes of the learned table in the front of the buffer, the rest kept.
pub fn siftpebble_look(desk: &mut Parts, school: u64, class: u64, out: &mut [u8]) -> Answer
    ensures { Serves desk.old (looks (as_key school class) out.old) result desk.new out.new }
{
    Answer::from(tables::look(desk, Key { school, class }, out))
}

// Write band: the code in the front of the buffer, the rest kept; its length, S and the pels revisited.
pub fn siftpebble_write(
    desk: &mut Parts,
    school: u64,
    class: u64,
    rows: u64,
    pels: &[u8],
    out: &mut [u8],
) -> Answer
    ensures { Serves desk.old (writes (ask_of school class rows) pels.now out.old) result desk.new out.new }
{
    let key = Key { school, class };
    Answer::from(writing::write(desk, Ask { key, rows }, pels, out))
}

// Read band: the rows in the front of the buffer, the rest kept; their bytes, S and the pels revisited.
pub fn siftpebble_read(
    desk: &mut Parts,
    school: u64,
    class: u64,
    rows: u64,
    code: &[u8],
    out: &mut [u8],
) -> Answer
    ensures { Serves desk.old (reads (ask_of school class rows) code.now out.old) result desk.new out.new }
{
    let key = Key { school, class };
    Answer::from(reading::read(desk, Ask { key, rows }, code, out))
}
