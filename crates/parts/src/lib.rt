// The desk's parts in memory: the lines of its book, how they are found, and how a page and a place are put.
#![tactic(auto)]

ghost use Rattle.std.specs.Prelude.{◌≡◌, ℕ, ◌<◌, length, drop};
ghost use Rattle.limits.specs.Limits.{max_pages, max_places};
ghost use Rattle.desk.specs.declared.Key.{Key};
ghost use Rattle.desk.specs.Places.{zero_table, unused_page, free_place, empty_desk, is_under, find_by};
ghost use Rattle.parts.specs.Parts.{as_page, as_place, desk_of, Whole};
ghost use Rattle.parts.specs.Finding.{found_below, is_sought, line_sought, page_sought, place_sought};
ghost use Rattle.parts.specs.Puts.{PagePut, PlacePut};

use desk::Key;
use estimate::Table;
use limits::{CONTEXTS, PAGES, PLACES, ROW};

// The numbers of an open page, or of an unused slot. state: 0 unused, 1 open to write, 2 open to read. It is a number,
// since C lends this memory, and any number may stand in it.
#[repr(C)]
#[derive(Clone, Copy, PartialEq, Eq, Default)]
pub struct PageLine {
    pub state: u64,
    pub key: Key,
    pub width: u64,
}

// The numbers of a class place. state: 0 free, 1 reserved by an open page, 2 learned; a number, as a page's is.
#[repr(C)]
#[derive(Clone, Copy, PartialEq, Eq, Default)]
pub struct PlaceLine {
    pub state: u64,
    pub key: Key,
}

// A line of the book, of a page or of a place: what a search looks at.
pub trait Line: Copy {
    ghost state: { Self → ℕ };

    ghost key: { Self → Key };

    fn state(self) -> u64
        ensures { result ≡ state self };

    fn key(self) -> Key
        ensures { result ≡ key self };
}

impl Line for PageLine {
    ghost state = { λ line. line.state };

    ghost key = { λ line. line.key };

    fn state(self) -> u64 {
        self.state
    }

    fn key(self) -> Key {
        self.key
    }
}

impl Line for PlaceLine {
    ghost state = { λ line. line.state };

    ghost key = { λ line. line.key };

    fn state(self) -> u64 {
        self.state
    }

    fn key(self) -> Key {
        self.key
    }
}

// The lines of all pages and places: all small numbers.
#[repr(C)]
#[derive(Clone, Copy)]
pub struct Book {
    pub pages: [PageLine; PAGES],
    pub places: [PlaceLine; PLACES],
}

// The desk in memory: what stands at i in an array belongs to line i of the book. The arrays lie beside one another,
// and not in the lines, since C lends this memory in place and keeps desks of this layout.
#[repr(C)]
#[derive(Drop)]
pub struct Parts {
    pub book: Book,
    pub working: [[u8; CONTEXTS]; PAGES],
    pub rows: [[u8; ROW]; PAGES],
    pub learned: [[u8; CONTEXTS]; PLACES],
}

// What is looked for: what is used under a key, a learned place of a key, or what is free.
#[derive(Clone, Copy, PartialEq, Eq)]
pub enum Sought {
    Used(Key),
    Learned(Key),
    Free,
}

// Used, and under the key.
fn is_under(state: u64, mine: Key, key: Key) -> bool
    ensures { result ≡ is_under state mine key }
{
    (state != 0) & (mine == key)
}

// Whether a line is what is looked for.
fn is_sought(state: u64, mine: Key, sought: Sought) -> bool
    ensures { result ≡ is_sought sought state mine }
{
    match sought {
        Sought::Used(key) => is_under(state, mine, key),
        Sought::Learned(key) => (state == 2) & (mine == key),
        Sought::Free => state == 0,
    }
}

// The first such line from one on.
pub fn find<L: Line>(lines: &[L], from: usize, sought: Sought) -> Option<usize>
    ensures { (result ≡ find_by (line_sought L.state L.key sought) (drop from lines.now) from)
        × found_below (length lines.now) result }
{
    for i in from..lines.len() {
        let line = lines[i];
        if is_sought(line.state(), line.key(), sought) {
            return Some(i);
        }
    }
    None
}

// The table of what is unused.
fn zero_table() -> Table
    ensures { result ≡ zero_table }
{
    Table {
        entries: [0; CONTEXTS],
    }
}

impl Parts {
    // No page open, no class known: all of it is zero.
    pub fn new() -> Parts
        ensures { (desk_of result ≡ empty_desk) × Whole result }
    {
        Parts {
            book: Book {
                pages: [PageLine::default(); PAGES],
                places: [PlaceLine::default(); PLACES],
            },
            working: [[0; CONTEXTS]; PAGES],
            rows: [[0; ROW]; PAGES],
            learned: [[0; CONTEXTS]; PLACES],
        }
    }

    // The first such page.
    pub fn find_page(&self, sought: Sought) -> Option<usize>
        ensures { (result ≡ find_by (page_sought sought) self.now.book.pages 0) × found_below max_pages result }
    {
        find(&self.book.pages, 0, sought)
    }

    // The first such place.
    pub fn find_place(&self, sought: Sought) -> Option<usize>
        ensures { (result ≡ find_by (place_sought sought) self.now.book.places 0) × found_below max_places result }
    {
        find(&self.book.places, 0, sought)
    }

    // A page put in a slot: its line, its working table and its last row.
    pub fn put_page(&mut self, i: usize, page: PageLine, table: Table, last: [u8; ROW])
        requires { i < max_pages }
        ensures { PagePut self.old i (as_page page table.entries last) self.new }
    {
        let entries = table.entries;
        self.book.pages[i] = page;
        self.working[i] = entries;
        self.rows[i] = last;
    }

    // A place put where one was found: its line and its learned table.
    pub fn put_place(&mut self, found: Option<usize>, place: PlaceLine, table: Table)
        requires { found_below max_places found }
        ensures { PlacePut self.old found (as_place place table.entries) self.new }
    {
        let Some(i) = found else {
            return;
        };
        let entries = table.entries;
        self.book.places[i] = place;
        self.learned[i] = entries;
    }

    // A slot that is unused again: all of it is zero.
    pub fn clear_page(&mut self, i: usize)
        requires { i < max_pages }
        ensures { PagePut self.old i unused_page self.new }
    {
        let last = [0; ROW];
        self.put_page(i, PageLine::default(), zero_table(), last);
    }

    // A place that is free again, where one was found: all of it is zero.
    pub fn clear_place(&mut self, found: Option<usize>)
        requires { found_below max_places found }
        ensures { PlacePut self.old found free_place self.new }
    {
        self.put_place(found, PlaceLine::default(), zero_table());
    }
}
