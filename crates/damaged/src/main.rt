// Codes read as one row on a new page. Of width 1, two are codes of a band and every other is damaged, or has a marker;
// of width 13, a code whose last FF a byte 00 follows; of width 17, two bytes are no room for the row.
#![tactic(auto)]

use desk::{Direction, Opening};
use lines::{Hex, KEY, Numbers, band_of, new_page, page_of};
use parts::Parts;
use std::io;

// An empty desk with a page of that width, open to read.
fn page_to_read(width: u64) -> Parts {
    new_page(Opening {
        direction: Direction::Read,
        ..page_of(KEY, width)
    })
}

// The line of one code: its name and bytes, the answer's number, length and S, and the buffer of two bytes after it.
fn line(rt: &impl Print, name: &str, desk: &mut Parts, code: &[u8]) -> io::Result<()> {
    let mut out = [255u8; 2];
    let read = reading::read(desk, band_of(KEY, 1), code, &mut out);
    println!(rt;
        "{name}{}: {}, buffer{}",
        Hex(code),
        Numbers(read),
        Hex(&out)
    )
}

// A code on a new page of that width.
fn of_width(rt: &impl Print, width: u64, name: &str, code: &[u8]) -> io::Result<()> {
    line(rt, name, &mut page_to_read(width), code)
}

// A code on a new page of width 1.
fn first(rt: &impl Print, name: &str, code: &[u8]) -> io::Result<()> {
    of_width(rt, 1, name, code)
}

// P1's code with one bit flipped, at each of its 16 positions.
fn flips(rt: &impl Print) -> io::Result<()> {
    for bit in 0..16u32 {
        let code = (0xAC10u16 ^ (0x8000 >> bit)).to_be_bytes();
        first(rt, "P1, one bit flipped,", &code)?;
    }
    Ok(())
}

// After a damaged band the page stays open, and the band may be sent again.
fn sent_again(rt: &impl Print) -> io::Result<()> {
    let mut desk = page_to_read(1);
    line(rt, "Damaged on its way,", &mut desk, b"\xAC\x11")?;
    line(rt, "Sent again,", &mut desk, b"\xAC\x10")
}

// A marker is a byte of 90 or more just after an FF, wherever it stands. It is told where there is room for the row.
fn markers(rt: &impl Print) -> io::Result<()> {
    first(rt, "FF 8F in place of P1,", b"\xFF\x8F")?;
    first(rt, "FF 90 in place of P1,", b"\xFF\x90")?;
    first(rt, "P1, FF 8F in it,", b"\xAC\xFF\x8F\x10")?;
    first(rt, "P1, FF 90 in it,", b"\xAC\xFF\x90\x10")?;
    first(rt, "P1, FF 90 after it,", b"\xAC\x10\xFF\x90")?;
    first(rt, "P1, FF FF after it,", b"\xAC\x10\xFF\xFF")?;
    first(rt, "P1, FF after it,", b"\xAC\x10\xFF")?;
    of_width(rt, 17, "FF 90 in 17 pels,", b"\xFF\x90")
}

fn main(rt: HostRuntime) -> io::Result<()> {
    first(&rt, "P1,", b"\xAC\x10")?;
    first(&rt, "P2,", b"\x00\x00")?;
    first(&rt, "P1, last byte one more,", b"\xAC\x11")?;
    first(&rt, "P2, a zero byte more,", b"\x00\x00\x00")?;
    first(&rt, "The empty code", b"")?;
    first(&rt, "P1, cut by one byte,", b"\xAC")?;
    first(&rt, "P1, a zero byte more,", b"\xAC\x10\x00")?;
    flips(&rt)?;
    markers(&rt)?;
    sent_again(&rt)?;
    of_width(&rt, 13, "E6 60 in 13 pels,", b"\x15\x6E\xFF\x00")?;
    of_width(&rt, 13, "E6 60, FF not followed by 00,", b"\x15\x6E\xFF")?;
    of_width(&rt, 13, "E6 60, a zero byte more,", b"\x15\x6E\xFF\x00\x00")
}
