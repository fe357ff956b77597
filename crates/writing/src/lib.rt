// The call that writes a band.
#![tactic(auto)]

ghost use Rattle.desk.specs.Allowed.{answer_of};
ghost use Rattle.desk.specs.Calls.{writes};
ghost use Rattle.parts.specs.Replies.{Serves};

use desk::{Ask, Direction, Done, Refusal};
use estimate::Table;
use limits::MAX_ROWS;
use parts::Parts;
use template::Band;

// Write band: the code from the page's working table and last row, which both go on.
pub fn write(desk: &mut Parts, ask: Ask, pels: &[u8], out: &mut [u8]) -> Result<Done, Refusal>
    ensures { Serves desk.old (writes ask pels.now out.old) (answer_of result) desk.new out.new }
{
    let sized = lawful::in_range(ask.rows, MAX_ROWS);
    let i = refusals::page_to(desk, ask.key, sized, Direction::Write)?;
    let page = desk.book.pages[i];
    let width = page.width as usize;
    let rows = ask.rows as usize;
    if pels.len() != rows * template::row_bytes(width) {
        return Err(Refusal::WrongSize);
    }
    let band = Band { pels, width, rows };
    if !band.is_padded() {
        return Err(Refusal::PaddingBit);
    }
    let table = Table {
        entries: desk.working[i],
    };
    let last = desk.rows[i];
    let Some(wrote) = writer::write_band(table, last, band, out) else {
        return Err(Refusal::NoRoom);
    };
    desk.put_page(i, page, wrote.table, wrote.last);
    Ok(Done {
        length: wrote.length as u64,
        shifts: wrote.shifts,
        revisits: wrote.revisits,
    })
}
