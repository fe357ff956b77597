// The calls on a class's learned table.
#![tactic(auto)]

ghost use Rattle.std.specs.Prelude.{[]};
ghost use Rattle.desk.specs.Allowed.{answer_of};
ghost use Rattle.desk.specs.Calls.{drops, looks};
ghost use Rattle.parts.specs.Replies.{Serves};

use desk::{Done, Key, Refusal};
use limits::CONTEXTS;
use parts::{Parts, Sought};

// Drop: the class's learned table is forgotten.
pub fn forget(desk: &mut Parts, key: Key) -> Result<Done, Refusal>
    ensures { Serves desk.old (drops key) (answer_of result) desk.new [] }
{
    refusals::early_refusal(desk, key, true)?;
    if desk.find_page(Sought::Used(key)).is_some() {
        return Err(Refusal::PageOpen);
    }
    let place = desk.find_place(Sought::Learned(key));
    if place.is_none() {
        return Err(Refusal::NoTable);
    }
    desk.clear_place(place);
    Ok(Done::default())
}

// Look: the learned table in the front of a buffer, one byte per context, the rest kept. While a page is open this is
// still the old table.
pub fn look(desk: &mut Parts, key: Key, out: &mut [u8]) -> Result<Done, Refusal>
    ensures { Serves desk.old (looks key out.old) (answer_of result) desk.new out.new }
{
    refusals::early_refusal(desk, key, true)?;
    let Some(i) = desk.find_place(Sought::Learned(key)) else {
        return Err(Refusal::NoTable);
    };
    if out.len() < CONTEXTS {
        store::clear(out);
        return Err(Refusal::NoRoom);
    }
    out[..CONTEXTS].copy_from_slice(&desk.learned[i]);
    Ok(Done {
        length: CONTEXTS as u64,
        ..Done::default()
    })
}
