// The calls over a lent desk, for C: each is the call of `counter` with the same name and clauses. The C interface
// needs them twice, since a crate is a library for Rattle's crates or a static library, and not both.
#![tactic(auto)]

ghost use Rattle.std.specs.Prelude.{◌≡◌, []};
ghost use Rattle.desk.specs.Places.{empty_desk};
ghost use Rattle.parts.specs.Parts.{desk_of, Whole};
ghost use Rattle.desk.specs.Calls.{opens, writes, reads, closes, abandons, drops, looks};
ghost use Rattle.parts.specs.Replies.{Serves};
ghost use Rattle.desk.specs.Asked.{as_key, to_write, to_read, ask_of};
ghost use Rattle.counter.specs.Layout.{desk_bytes};

use desk::Answer;
use parts::Parts;

// How many bytes a desk has.
#[unsafe(no_mangle)]
pub extern "C" fn siftpebble_desk_bytes() -> usize
    ensures { result ≡ desk_bytes }
{
    counter::siftpebble_desk_bytes()
}

// An empty desk: no page is open, no class has a table.
#[unsafe(no_mangle)]
pub extern "C" fn siftpebble_empty(desk: &mut Parts)
    ensures { (desk_of desk.new ≡ empty_desk) × Whole desk.new }
{
    counter::siftpebble_empty(desk);
}

// Open, to write: working table = the class's learned table, or the fresh one; last row white.
#[unsafe(no_mangle)]
pub extern "C" fn siftpebble_open_write(
    desk: &mut Parts,
    school: u64,
    class: u64,
    width: u64,
) -> Answer
    ensures { Serves desk.old (opens (to_write school class width)) result desk.new [] }
{
    counter::siftpebble_open_write(desk, school, class, width)
}

// Open, to read: working table = the class's learned table, or the fresh one; last row white.
#[unsafe(no_mangle)]
pub extern "C" fn siftpebble_open_read(
    desk: &mut Parts,
    school: u64,
    class: u64,
    width: u64,
) -> Answer
    ensures { Serves desk.old (opens (to_read school class width)) result desk.new [] }
{
    counter::siftpebble_open_read(desk, school, class, width)
}

// Close: the working table becomes the class's learned table. The page is gone.
#[unsafe(no_mangle)]
pub extern "C" fn siftpebble_close(desk: &mut Parts, school: u64, class: u64) -> Answer
    ensures { Serves desk.old (closes (as_key school class)) result desk.new [] }
{
    counter::siftpebble_close(desk, school, class)
}

// Abandon: the page is gone, the learned table is as before; a place that was only reserved is free.
#[unsafe(no_mangle)]
pub extern "C" fn siftpebble_abandon(desk: &mut Parts, school: u64, class: u64) -> Answer
    ensures { Serves desk.old (abandons (as_key school class)) result desk.new [] }
{
    counter::siftpebble_abandon(desk, school, class)
}

// Drop: the class's learned table is forgotten.
#[unsafe(no_mangle)]
pub extern "C" fn siftpebble_drop(desk: &mut Parts, school: u64, class: u64) -> Answer
    ensures { Serves desk.old (drops (as_key school class)) result desk.new [] }
{
    counter::siftpebble_drop(desk, school, class)
}

// Look: the 128 bytes of the learned table in the front of the buffer, the rest kept.
#[unsafe(no_mangle)]
pub extern "C" fn siftpebble_look(
    desk: &mut Parts,
    school: u64,
    class: u64,
    out: &mut [u8],
) -> Answer
    ensures { Serves desk.old (looks (as_key school class) out.old) result desk.new out.new }
{
    counter::siftpebble_look(desk, school, class, out)
}

// Write band: the code in the front of the buffer, the rest kept; its length, S and the pels revisited.
#[unsafe(no_mangle)]
pub extern "C" fn siftpebble_write(
    desk: &mut Parts,
    school: u64,
    class: u64,
    rows: u64,
    pels: &[u8],
    out: &mut [u8],
) -> Answer
    ensures { Serves desk.old (writes (ask_of school class rows) pels.now out.old) result desk.new out.new }
{
    counter::siftpebble_write(desk, school, class, rows, pels, out)
}

// Read band: the rows in the front of the buffer, the rest kept; their bytes, S and the pels revisited.
#[unsafe(no_mangle)]
pub extern "C" fn siftpebble_read(
    desk: &mut Parts,
    school: u64,
    class: u64,
    rows: u64,
    code: &[u8],
    out: &mut [u8],
) -> Answer
    ensures { Serves desk.old (reads (ask_of school class rows) code.now out.old) result desk.new out.new }
{
    counter::siftpebble_read(desk, school, class, rows, code, out)
}
