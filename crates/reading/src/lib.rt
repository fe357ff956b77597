// The call that reads a band, and what is told of a code that is no band's.
#![tactic(auto)]

ghost use Rattle.std.specs.Prelude.{◌≡◌};
ghost use Rattle.marker.specs.Marker.{marked};
ghost use Rattle.desk.specs.Allowed.{answer_of};
ghost use Rattle.desk.specs.Calls.{reads};
ghost use Rattle.desk.specs.Refusals.{damage, number_of};
ghost use Rattle.parts.specs.Replies.{Serves};

use desk::{Ask, Direction, Done, Refusal};
use estimate::Table;
use limits::{MAX_CODE, MAX_ROWS};
use parts::Parts;
use reader::Fault;

// Why a code is refused as which no band would have been written: it has a marker, or it is damaged otherwise. No From
// of a `Fault`, since the code must be looked at.
fn fault(code: &[u8]) -> Refusal
    ensures { number_of result ≡ damage (marked code.now) }
{
    if marker::marked(code) {
        return Refusal::Marker;
    }
    Refusal::Damaged
}

// Read band: the rows that would have been written as exactly that code. The page's table and last row go on as the
// writer's did.
pub fn read(desk: &mut Parts, ask: Ask, code: &[u8], out: &mut [u8]) -> Result<Done, Refusal>
    ensures { Serves desk.old (reads ask code.now out.old) (answer_of result) desk.new out.new }
{
    let sized = lawful::in_range(ask.rows, MAX_ROWS) && code.len() <= MAX_CODE;
    let i = refusals::page_to(desk, ask.key, sized, Direction::Read)?;
    let page = desk.book.pages[i];
    let width = page.width as usize;
    let count = ask.rows as usize;
    let table = Table {
        entries: desk.working[i],
    };
    let last = desk.rows[i];
    let read = match reader::read_band(table, last, width, count, code, out) {
        Ok(read) => read,
        Err(Fault::NoRoom) => return Err(Refusal::NoRoom),
        Err(Fault::Damaged) => return Err(fault(code)),
    };
    desk.put_page(i, page, read.table, read.last);
    Ok(Done {
        length: read.length as u64,
        shifts: read.shifts,
        revisits: read.revisits,
    })
}
