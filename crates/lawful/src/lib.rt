// Whether a desk is lawful. Every byte of its arrays is looked at, with no early exit, so that the loop is made of
// vector instructions. States are looked at as the numbers that they are in C's memory.
#![tactic(auto)]

ghost use Rattle.std.specs.Prelude.{◌≡◌, ◌+◌, ◌*◌, ◌≤◌, ◌<◌, length, get_or, drop};
ghost use Rattle.limits.specs.Limits.{max_width, last_bytes};
ghost use Rattle.parts.specs.Parts.{as_page, as_place, pages_of, places_of, desk_of, Whole};
ghost use Rattle.parts.specs.declared.Sought.TheVariants.{Used};
ghost use Rattle.parts.specs.Finding.{line_sought};
ghost use Rattle.parts.specs.Lines.{no_page_line, no_place_line};
ghost use Rattle.desk.specs.Lawful.{within, any, lawful_key, no_stray, lawful_page, lawful_place, lawful};
ghost use Rattle.lawful.specs.Highest.{highest_from, low, top_entry};
ghost use Rattle.lawful.specs.Every.{each};
ghost use Rattle.lawful.specs.Each.{open_right, unused_right, page_known, place_known, page_right, place_right};

use desk::Key;
use limits::{CONTEXTS, MAX_KEY, MAX_WIDTH, ROW};
use parts::{Line, PageLine, Parts, PlaceLine, Sought};
use template::Row;

// 2 × 29 + 1: the highest entry of a table.
const MAX_ENTRY: u8 = 59;

// A number from 1 to a limit.
pub fn in_range(n: u64, high: u64) -> bool
    ensures { result ≡ within 1 n high }
{
    (1 <= n) & (n <= high)
}

// Each number 1 to the limit.
pub fn lawful_key(key: Key) -> bool
    ensures { result ≡ lawful_key key }
{
    in_range(key.school, MAX_KEY) & in_range(key.class, MAX_KEY)
}

// The highest byte.
fn highest(xs: &[u8]) -> u8
    ensures { result ≡ highest_from 0 xs.now }
{
    let mut top: u8 = 0;
    for x in xs {
        top = top.max(*x);
    }
    top
}

// Every byte is at most n.
fn is_low(xs: &[u8], n: u8) -> bool
    ensures { result ≡ low n xs.now }
{
    highest(xs) <= n
}

// Neither a padding bit nor a byte after the row is set.
fn no_stray(last: &[u8], width: usize) -> bool
    requires { (1 ≤ width) × (width ≤ max_width) × (width ≤ 8 * length last.now) }
    ensures { result ≡ no_stray width last.now }
{
    let n = template::row_bytes(width);
    let row = Row {
        bytes: &last[..n],
        width,
    };
    row.is_padded() & is_low(&last[n..], 0)
}

// An open page: its state, key, width, indexes and last row.
fn open_right(p: PageLine, table: &[u8], last: &[u8]) -> bool
    requires { length last.now ≡ last_bytes }
    ensures { result ≡ open_right (as_page p table.now last.now) }
{
    if !in_range(p.width, MAX_WIDTH) {
        return false;
    }
    (p.state <= 2)
        & (lawful_key(p.key) & (is_low(table, MAX_ENTRY) & no_stray(last, p.width as usize)))
}

// An unused page is zero.
fn unused_right(p: PageLine, table: &[u8], last: &[u8]) -> bool
    ensures { result ≡ unused_right (as_page p table.now last.now) }
{
    (p.key == Key::default()) & ((p.width == 0) & (is_low(table, 0) & is_low(last, 0)))
}

// By whether it is open.
fn lawful_page(p: PageLine, table: &[u8], last: &[u8]) -> bool
    requires { length last.now ≡ last_bytes }
    ensures { result ≡ lawful_page (as_page p table.now last.now) }
{
    if p.state == 0 {
        return unused_right(p, table, last);
    }
    open_right(p, table, last)
}

// The highest entry that a place of that state may have: a reserved place's table, and a free one's, are zero.
fn top_entry(state: u64) -> u8
    ensures { result ≡ top_entry state }
{
    if state == 2 {
        return MAX_ENTRY;
    }
    0
}

// A used place has a lawful key, a free one none; its table is learned and lawful, or zero.
fn lawful_place(q: PlaceLine, table: &[u8]) -> bool
    ensures { result ≡ lawful_place (as_place q table.now) }
{
    let low = is_low(table, top_entry(q.state));
    if q.state == 0 {
        return (q.key == Key::default()) & low;
    }
    (q.state <= 2) & (lawful_key(q.key) & low)
}

// Whether a line from that one on is under the key.
fn has<L: Line>(lines: &[L], from: usize, key: Key) -> bool
    ensures { result ≡ any (line_sought L.state L.key (Used key)) (drop from lines.now) }
{
    parts::find(lines, from, Sought::Used(key)).is_some()
}

// An open page is alone under its key, and has its place.
fn page_known(pages: &[PageLine], places: &[PlaceLine], i: usize) -> bool
    requires { i < length pages.now }
    ensures { result ≡ page_known places.now (get_or pages.now i no_page_line) (drop (i + 1) pages.now) }
{
    let p = pages[i];
    (p.state == 0) | (!has(pages, i + 1, p.key) & has(places, 0, p.key))
}

// A used place is alone under its key, and a reserved one has its page.
fn place_known(pages: &[PageLine], places: &[PlaceLine], i: usize) -> bool
    requires { i < length places.now }
    ensures { result ≡ place_known pages.now (get_or places.now i no_place_line) (drop (i + 1) places.now) }
{
    let q = places[i];
    ((q.state == 0) | !has(places, i + 1, q.key)) & ((q.state != 1) | has(pages, 0, q.key))
}

// Every page is right: in itself, and in the book.
fn pages_right(
    pages: &[PageLine],
    places: &[PlaceLine],
    working: &[[u8; CONTEXTS]],
    rows: &[[u8; ROW]],
) -> bool
    requires { (length pages.now ≡ length working.now) × (length pages.now ≡ length rows.now) }
    ensures { result ≡ each (page_right places.now) (pages_of pages.now working.now rows.now) }
{
    for (i, page) in pages.iter().enumerate() {
        let lawful = lawful_page(*page, &working[i], &rows[i]);
        if !(lawful & page_known(pages, places, i)) {
            return false;
        }
    }
    true
}

// Every place is right: in itself, and in the book.
fn places_right(pages: &[PageLine], places: &[PlaceLine], learned: &[[u8; CONTEXTS]]) -> bool
    requires { length places.now ≡ length learned.now }
    ensures { result ≡ each (place_right pages.now) (places_of places.now learned.now) }
{
    for (i, place) in places.iter().enumerate() {
        let lawful = lawful_place(*place, &learned[i]);
        if !(lawful & place_known(pages, places, i)) {
            return false;
        }
    }
    true
}

// Whether the desk is lawful.
pub fn lawful_desk(desk: &Parts) -> bool
    ensures { (result ≡ lawful (desk_of desk.now)) × Whole desk.now }
{
    let pages = &desk.book.pages;
    let places = &desk.book.places;
    pages_right(pages, places, &desk.working, &desk.rows)
        & places_right(pages, places, &desk.learned)
}
