// The call that opens a page.
#![tactic(auto)]

ghost use Rattle.std.specs.Prelude.{◌≡◌, [], ◌<◌};
ghost use Rattle.limits.specs.Limits.{max_pages};
ghost use Rattle.parts.specs.Parts.{desk_of, Whole};
ghost use Rattle.desk.specs.Allowed.{answer_of};
ghost use Rattle.desk.specs.Calls.{opens};
ghost use Rattle.parts.specs.Replies.{outcome_of, Serves};
ghost use Rattle.opening.specs.Opening.{new_line, open_new};

use desk::{Done, Opening, Refusal};
use estimate::Table;
use limits::{CONTEXTS, MAX_WIDTH, ROW};
use parts::{PageLine, Parts, PlaceLine, Sought};

// The line of a page that is opened.
fn new_line(ask: Opening) -> PageLine
    ensures { result ≡ new_line ask }
{
    PageLine {
        state: ask.direction.into(),
        key: ask.key,
        width: ask.width,
    }
}

// Open: the working table is the class's learned table, or the fresh one; the last row is white.
pub fn open(desk: &mut Parts, ask: Opening) -> Result<Done, Refusal>
    ensures { Serves desk.old (opens ask) (answer_of result) desk.new [] }
{
    let sized = lawful::in_range(ask.width, MAX_WIDTH);
    refusals::early_refusal(desk, ask.key, sized)?;
    if desk.find_page(Sought::Used(ask.key)).is_some() {
        return Err(Refusal::PageOpen);
    }
    let Some(i) = desk.find_page(Sought::Free) else {
        return Err(Refusal::PagesFull);
    };
    let Some(j) = desk.find_place(Sought::Learned(ask.key)) else {
        return open_new(desk, ask, i);
    };
    let table = Table {
        entries: desk.learned[j],
    };
    desk.put_page(i, new_line(ask), table, [0; ROW]);
    Ok(Done::default())
}

// The open page of a class without a table reserves a place.
fn open_new(desk: &mut Parts, ask: Opening, i: usize) -> Result<Done, Refusal>
    requires { (i < max_pages) × Whole desk.old }
    ensures { (outcome_of (answer_of result) desk.new ≡ open_new (desk_of desk.old) ask i) × Whole desk.new }
{
    let place = desk.find_place(Sought::Free);
    if place.is_none() {
        return Err(Refusal::PlacesFull);
    }
    // 1: reserved by an open page
    let line = PlaceLine {
        state: 1,
        key: ask.key,
    };
    let none = Table {
        entries: [0; CONTEXTS],
    };
    desk.put_place(place, line, none);
    desk.put_page(i, new_line(ask), Table::fresh(), [0; ROW]);
    Ok(Done::default())
}
