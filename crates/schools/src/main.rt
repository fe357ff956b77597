// Two classes of one number, of two schools, at one desk; and what a look shows after a close.
#![tactic(auto)]

use desk::{Answer, Key};
use limits::CONTEXTS;
use lines::{Hex, KEY, Numbers, band_of, key_of, page_of};
use parts::Parts;
use std::{fmt, io};

// The contexts of a table whose byte is not 00.
#[derive(Clone, Copy)]
struct Contexts<'a>(&'a [u8]);

impl<'a> fmt::Display for Contexts<'a> {
    fn fmt<W: fmt::Write>(&self, f: &mut fmt::Formatter<W>) -> fmt::Result {
        for (cx, &b) in self.0.iter().enumerate() {
            if b != 0 {
                write!(f, ", context {cx} is {b:02X}")?;
            }
        }
        f.write_str(", elsewhere 00")
    }
}

// One band of one row, its code shown.
fn code_line(
    rt: &impl Print,
    name: &str,
    desk: &mut Parts,
    key: Key,
    pels: &[u8],
) -> io::Result<()> {
    let mut out = [0u8; 8];
    let wrote = writing::write(desk, band_of(key, 1), pels, &mut out);
    let code = store::front_of(&out, Answer::from(wrote).length as usize);
    println!(rt; "{name}: {}, code{}", Numbers(wrote), Hex(code))
}

// Two classes of one number, of two schools: each of the two pages has its own table and last row.
fn two_schools(rt: &impl Print, desk: &mut Parts) -> io::Result<()> {
    let one = key_of(1, 5);
    let two = key_of(2, 5);
    let opened = opening::open(desk, page_of(one, 1));
    println!(rt; "School 1, class 5 opened: {}", Numbers(opened))?;
    let beside = opening::open(desk, page_of(two, 1));
    println!(rt; "School 2, class 5 opened beside it: {}", Numbers(beside))?;
    code_line(rt, "P2 by school 1", desk, one, b"\x80")?;
    code_line(rt, "P1 by school 2", desk, two, b"\x00")?;
    code_line(rt, "P9 by school 1", desk, one, b"\x80")?;
    code_line(rt, "P7 by school 2", desk, two, b"\x00")
}

// Rows of width 1 on a new page, a band each; the page is closed, and its class's table looked at. The desk is emptied
// where it stands: one is enough for the stack.
fn look_after(rt: &impl Print, name: &str, desk: &mut Parts, rows: &[u8]) -> io::Result<()> {
    *desk = Parts::new();
    let _ = opening::open(desk, page_of(KEY, 1));
    let mut out = [0u8; 8];
    for row in rows.chunks(1) {
        let _ = writing::write(desk, band_of(KEY, 1), row, &mut out);
    }
    let _ = closing::close(desk, KEY);
    let mut table = [255u8; CONTEXTS];
    let seen = tables::look(desk, KEY, &mut table);
    println!(rt; "{name}: {}{}", Numbers(seen), Contexts(&table))
}

fn main(rt: HostRuntime) -> io::Result<()> {
    let mut desk = Parts::new();
    two_schools(&rt, &mut desk)?;
    look_after(&rt, "Look after P1 and close", &mut desk, b"\x00")?;
    look_after(&rt, "Look after P2, P9 and close", &mut desk, b"\x80\x80")
}
