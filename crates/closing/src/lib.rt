// The calls that leave a page: close and abandon.
#![tactic(auto)]

ghost use Rattle.std.specs.Prelude.{◌≡◌, []};
ghost use Rattle.limits.specs.Limits.{max_places};
ghost use Rattle.parts.specs.Finding.{found_below};
ghost use Rattle.desk.specs.Allowed.{answer_of};
ghost use Rattle.desk.specs.Calls.{closes, abandons};
ghost use Rattle.parts.specs.Replies.{Serves};
ghost use Rattle.closing.specs.Leaving.{reserved_found};

use desk::{Done, Key, Refusal};
use estimate::Table;
use parts::{Parts, PlaceLine, Sought};

// Close: the working table becomes the class's learned table, and the page is gone.
pub fn close(desk: &mut Parts, key: Key) -> Result<Done, Refusal>
    ensures { Serves desk.old (closes key) (answer_of result) desk.new [] }
{
    let i = refusals::page_for(desk, key, true)?;
    let place = desk.find_place(Sought::Used(key));
    // 2: learned
    let line = PlaceLine { state: 2, key };
    let table = Table {
        entries: desk.working[i],
    };
    desk.put_place(place, line, table);
    desk.clear_page(i);
    Ok(Done::default())
}

// The place that the key's page only reserves.
fn reserved_place(desk: &Parts, key: Key) -> Option<usize>
    ensures { (result ≡ reserved_found key desk.now.book.places) × found_below max_places result }
{
    if desk.find_place(Sought::Learned(key)).is_some() {
        return None;
    }
    desk.find_place(Sought::Used(key))
}

// Abandon: the page is gone, and the learned table is as before.
pub fn abandon(desk: &mut Parts, key: Key) -> Result<Done, Refusal>
    ensures { Serves desk.old (abandons key) (answer_of result) desk.new [] }
{
    let i = refusals::page_for(desk, key, true)?;
    let place = reserved_place(desk, key);
    desk.clear_place(place);
    desk.clear_page(i);
    Ok(Done::default())
}
