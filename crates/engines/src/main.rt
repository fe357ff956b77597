// Bands on a new page, written by the first engine and by the second: each code in hexadecimal, its S and its pels
// revisited.
#![tactic(auto)]

ghost use Rattle.std.specs.Prelude.{◌≡◌, ◌*◌, ◌≤◌, length};
ghost use Rattle.limits.specs.Limits.{max_width, max_rows};
ghost use Rattle.template.specs.Pels.{row_bytes};

use estimate::Table;
use limits::ROW;
use lines::Hex;
use octets::{Coder, Engine};
use std::io;
use template::Band;
use top::Top;

// The line of one band by one engine.
fn line<E: Engine>(rt: &impl Print, name: &str, engine: &str, band: Band) -> io::Result<()>
    requires { 1 ≤ band.rows }
{
    let mut out = [0u8; 32];
    let Some(wrote) = writer::write_by::<E>(Table::fresh(), [0; ROW], band, &mut out) else {
        return println!(rt; "{name} {engine} S=0 revisited=0");
    };
    println!(rt;
        "{name} {engine}{} S={} revisited={}",
        Hex(store::front_of(&out, wrote.length)),
        wrote.shifts,
        wrote.revisits
    )
}

// One band by both. It takes a band's parts, and is the one place that makes a `Band` of them.
fn both(rt: &impl Print, name: &str, width: usize, rows: usize, pels: &[u8]) -> io::Result<()>
    requires { (1 ≤ width) × (width ≤ max_width) × (1 ≤ rows) × (rows ≤ max_rows)
        × (length pels.now ≡ rows * row_bytes width) }
{
    let band = Band { pels, width, rows };
    line::<Coder>(rt, name, "first: ", band)?;
    line::<Top>(rt, name, "second:", band)
}

fn main(rt: HostRuntime) -> io::Result<()> {
    both(&rt, "P1", 1, 1, b"\x00")?;
    both(&rt, "P2", 1, 1, b"\x80")?;
    both(&rt, "P3", 2, 1, b"\x00")?;
    both(&rt, "P4", 2, 1, b"\x40")?;
    both(&rt, "P5", 2, 1, b"\x80")?;
    both(&rt, "P6", 2, 1, b"\xC0")?;
    both(&rt, "P8", 1, 2, b"\x00\x00")?;
    both(
        &rt,
        "a carry in a stuff bit",
        32,
        4,
        b"\xB6\x16\xB4\xD6\x1E\xF2\x90\x21\xFE\x64\xCB\x11\xB8\x02\x03\xC4",
    )?;
    both(
        &rt,
        "a last FF",
        32,
        4,
        b"\x25\x64\x8D\x68\xA0\x56\xA5\xAB\x81\x75\xB9\xD6\x90\x98\xC9\xE4",
    )
}
