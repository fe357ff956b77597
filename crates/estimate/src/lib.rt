// A table of learned entries, the thirty rows' values, and the next entries.
#![tactic(auto)]

ghost use Rattle.std.specs.Prelude.{◌≡◌, ◌*◌, ◌≤◌};
ghost use Rattle.estimate.specs.Estimate.{row_of, fall, next, fresh, LawfulEntry};

use limits::CONTEXTS;

// One entry for each context, 2 × index + sense. A page of a lent desk has one too, lawful or not, so that its indexes
// are at most 29 stands in the contracts and not here.
#[repr(C)]
#[derive(Clone, Copy)]
pub struct Table {
    pub entries: [u8; CONTEXTS],
}

impl Table {
    // Every context index 0 and sense 0.
    pub fn fresh() -> Self
        ensures { result.entries ≡ fresh }
    {
        Table {
            entries: [0u8; CONTEXTS],
        }
    }
}

// The value Q of an entry's row. A match, and not an array, so that the values lie in constant memory and no pel copies
// them; over five bits, all of whose numbers have an arm, so that no pel asks whether its entry is in the table.
pub fn row_of(e: u8) -> u64
    requires { LawfulEntry e }
    ensures { result ≡ row_of e }
{
    let i = (e / 2) % 32;
    match i {
        0 => 0x0AC1,
        1 => 0x0A81,
        2 => 0x0A01,
        3 => 0x0901,
        4 => 0x0701,
        5 => 0x0681,
        6 => 0x0601,
        7 => 0x0501,
        8 => 0x0481,
        9 => 0x0441,
        10 => 0x0381,
        11 => 0x0301,
        12 => 0x02C1,
        13 => 0x0281,
        14 => 0x0241,
        15 => 0x0181,
        16 => 0x0121,
        17 => 0x00E1,
        18 => 0x00A1,
        19 => 0x0071,
        20 => 0x0059,
        21 => 0x0053,
        22 => 0x0027,
        23 => 0x0017,
        24 => 0x0013,
        25 => 0x000B,
        26 => 0x0007,
        27 => 0x0005,
        28 => 0x0003,
        29 => 0x0001,
        30 => 0x0001,
        _ => 0x0001,
    }
}

// The falls of the thirty rows, two bits for each, row 0 in the lowest: nobody can foretell an unexpected pel, and so
// no pel branches on its row.
const FALLS: u64 = 0x0BBBAAAAAAAA9554;

// How far an entry falls after an unexpected pel: twice the index's fall.
fn fall_of(i: u8) -> u8
    requires { i ≤ 29 }
    ensures { result ≡ 2 * fall i }
{
    let fall = (FALLS >> (2 * i)) % 4;
    2 * (fall as u8)
}

// The entry after a renormalisation: on the expected pel the index rises, on the other it falls, and at row 0 the sense
// flips.
pub fn next_entry(e: u8, expected: bool) -> u8
    requires { LawfulEntry e }
    ensures { result ≡ next expected e }
{
    let i = e / 2;
    if expected {
        return if i < 29 { e + 2 } else { e };
    }
    if i == 0 {
        return 1 - e;
    }
    e - fall_of(i)
}
