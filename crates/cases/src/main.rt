// The limits of document 01, on both sides of each: what is asked, then the answer's number, length, S and revisited
// pels.
#![tactic(auto)]

use desk::Key;
use limits::ROW;
use lines::{Hex, KEY, Numbers, band_of, key_of, new_page, page_of};
use parts::Parts;
use std::io;

fn width_line(rt: &impl Print, name: &str, width: u64) -> io::Result<()> {
    let mut desk = Parts::new();
    let opened = opening::open(&mut desk, page_of(KEY, width));
    println!(rt; "{name}: {}", Numbers(opened))
}

// White rows, so many bytes in all.
fn rows_line(rt: &impl Print, name: &str, width: u64, count: u64, bytes: usize) -> io::Result<()> {
    let mut desk = new_page(page_of(KEY, width));
    let pels = [0u8; 64 * ROW];
    let mut out = [0u8; 64];
    let band = store::front_of(&pels, bytes);
    let wrote = writing::write(&mut desk, band_of(KEY, count), band, &mut out);
    println!(rt; "{name}: {}", Numbers(wrote))
}

// Classes 1 to n have each been opened, and something done with the open page; then one class more is.
fn one_more<F: Fn(&mut Parts, Key)>(rt: &impl Print, name: &str, n: u64, then: F) -> io::Result<()>
    requires { F.IsAlwaysCallable then }
{
    let mut desk = Parts::new();
    for class in 1..=n {
        let key = key_of(1, class);
        let _ = opening::open(&mut desk, page_of(key, 1));
        then(&mut desk, key);
    }
    let opened = opening::open(&mut desk, page_of(key_of(1, 100), 1));
    println!(rt; "{name}: {}", Numbers(opened))
}

fn close(desk: &mut Parts, key: Key) {
    let _ = closing::close(desk, key);
}

// A row on a new page of that width, into a buffer, which is then shown.
fn buffer_line(
    rt: &impl Print,
    name: &str,
    width: u64,
    row: &[u8],
    out: &mut [u8],
) -> io::Result<()> {
    let mut desk = new_page(page_of(KEY, width));
    let wrote = writing::write(&mut desk, band_of(KEY, 1), row, out);
    println!(rt; "{name}: {}, buffer{}", Numbers(wrote), Hex(out))
}

fn main(rt: HostRuntime) -> io::Result<()> {
    width_line(&rt, "Width 2,048", 2048)?;
    width_line(&rt, "Width 2,049", 2049)?;
    rows_line(&rt, "64 rows", 1, 64, 64)?;
    rows_line(&rt, "65 rows", 1, 65, 65)?;
    rows_line(&rt, "5 white pels", 5, 1, 1)?;
    rows_line(&rt, "64 white rows of 2,048 pels", 2048, 64, 64 * ROW)?;
    one_more(&rt, "Fourth open page", 3, |_, _| {})?;
    one_more(&rt, "Fifth open page", 4, |_, _| {})?;
    one_more(&rt, "Eighth class", 7, close)?;
    one_more(&rt, "Ninth class", 8, close)?;
    buffer_line(&rt, "P1 into 2 bytes", 1, b"\x00", &mut [255; 2])?;
    buffer_line(&rt, "P1 into 1 byte", 1, b"\x00", &mut [255; 1])?;
    buffer_line(&rt, "E6 60 into 4 bytes", 13, b"\xE6\x60", &mut [255; 4])?;
    buffer_line(&rt, "E6 60 into 3 bytes", 13, b"\xE6\x60", &mut [255; 3])
}
