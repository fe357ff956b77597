// What the programs ask, the desk that they begin with, and what they print: bytes in hexadecimal, answers.
#![tactic(auto)]

ghost use Rattle.std.specs.Prelude.{◌≡◌, Some};
ghost use Rattle.desk.specs.Allowed.{answer_of};
ghost use Rattle.desk.specs.Asked.{as_key, to_write, ask_of};
ghost use Rattle.parts.specs.Parts.{Whole};
ghost use Rattle.lines.specs.Lines.{hex_text, answer_text, NewPage};

use desk::{Answer, Ask, Direction, Done, Key, Opening, Refusal};
use parts::Parts;
use std::fmt;

// Bytes in hexadecimal: for each a space, then its two digits.
#[derive(Clone, Copy)]
pub struct Hex<'a>(pub &'a [u8]);

impl<'a> fmt::Display for Hex<'a> {
    ghost output = { λ h. Some (hex_text h.0.now) };

    fn fmt<W: fmt::Write>(&self, f: &mut fmt::Formatter<W>) -> fmt::Result {
        for &b in self.0 {
            write!(f, " {b:02X}")?;
        }
        Ok(())
    }
}

// The four numbers that a call answers.
#[derive(Clone, Copy)]
pub struct Numbers(pub Result<Done, Refusal>);

impl fmt::Display for Numbers {
    ghost output = { λ n. Some (answer_text (answer_of n.0)) };

    fn fmt<W: fmt::Write>(&self, f: &mut fmt::Formatter<W>) -> fmt::Result {
        let Answer {
            number,
            length,
            shifts,
            revisits,
        } = self.0.into();
        write!(
            f,
            "answer {number}, length {length}, S {shifts}, revisits {revisits}"
        )
    }
}

// The key that most programs ask with.
pub const KEY: Key = Key {
    school: 1,
    class: 1,
};

pub fn key_of(school: u64, class: u64) -> Key
    ensures { result ≡ as_key school class }
{
    Key { school, class }
}

// A page to write, of that width.
pub fn page_of(key: Key, width: u64) -> Opening
    ensures { result ≡ to_write key.school key.class width }
{
    Opening {
        key,
        direction: Direction::Write,
        width,
    }
}

// A band of that many rows.
pub fn band_of(key: Key, count: u64) -> Ask
    ensures { result ≡ ask_of key.school key.class count }
{
    Ask { key, rows: count }
}

// An empty desk that was asked for a page.
pub fn new_page(ask: Opening) -> Parts
    ensures { NewPage ask result × Whole result }
{
    let mut desk = Parts::new();
    let _ = opening::open(&mut desk, ask);
    desk
}
