// P1 to P9 of document 01: each band written on a desk, its code in hexadecimal and its S.
#![tactic(auto)]

use desk::Answer;
use lines::{Hex, KEY, band_of, new_page, page_of};
use parts::Parts;
use std::io;

// The line of one band on the open page: its name, its code and its S.
fn line(rt: &impl Print, name: &str, desk: &mut Parts, count: u64, pels: &[u8]) -> io::Result<()> {
    let mut out = [0u8; 16];
    let wrote = Answer::from(writing::write(desk, band_of(KEY, count), pels, &mut out));
    let code = store::front_of(&out, wrote.length as usize);
    println!(rt; "{name}:{} S={}", Hex(code), wrote.shifts)
}

// A band on a new page.
fn first(rt: &impl Print, name: &str, width: u64, count: u64, pels: &[u8]) -> io::Result<()> {
    let mut desk = new_page(page_of(KEY, width));
    line(rt, name, &mut desk, count, pels)
}

// A second band of one row on a page of width 1.
fn second(rt: &impl Print, name: &str, before: &[u8], pels: &[u8]) -> io::Result<()> {
    let mut desk = new_page(page_of(KEY, 1));
    let mut out = [0u8; 16];
    let _ = writing::write(&mut desk, band_of(KEY, 1), before, &mut out);
    line(rt, name, &mut desk, 1, pels)
}

fn main(rt: HostRuntime) -> io::Result<()> {
    first(&rt, "P1", 1, 1, b"\x00")?;
    first(&rt, "P2", 1, 1, b"\x80")?;
    first(&rt, "P3", 2, 1, b"\x00")?;
    first(&rt, "P4", 2, 1, b"\x40")?;
    first(&rt, "P5", 2, 1, b"\x80")?;
    first(&rt, "P6", 2, 1, b"\xC0")?;
    second(&rt, "P7", b"\x00", b"\x00")?;
    first(&rt, "P8", 1, 2, b"\x00\x00")?;
    second(&rt, "P9", b"\x80", b"\x80")
}
