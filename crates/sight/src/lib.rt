// What is in sight of a code: the reader is the writer, told each pel by it.
#![tactic(auto)]

ghost use Rattle.std.specs.Prelude.{◌≡◌, false, [], ℕ, ◌+◌, ◌-◌, ◌*◌, ◌%◌, ◌≤◌, ◌<◌, ◌^◌, length, take, drop, get_or};
ghost use Rattle.limits.specs.Limits.{max_shifts};
ghost use Rattle.estimate.specs.Estimate.{LawfulEntry};
ghost use Rattle.octets.specs.Octets.{bits};
ghost use Rattle.coder.specs.Reading.{pel_of};
ghost use Rattle.octets.specs.Fit.{Ready};
ghost use Rattle.octets.specs.Lift.{lift};
ghost use Rattle.top.specs.Top.{bottom_of};
ghost use Rattle.exact.specs.Sight.{opened};
ghost use Rattle.exact.specs.Sight as law;
ghost use Rattle.sight.specs.Views.{sight_of, seeks, ReadPel};
ghost use Rattle.sight.specs.Still.{view_by};

use octets::Engine;
use row::Pel;
use top::Top;

// What is in sight of a code: its bits read so far less the low end, how many of them lie ahead, the byte last read,
// and where the next stands. It is a place and not the rest of the code as a slice, since a reader's loop is short of
// registers: a slice takes two, and the code is at hand there anyway, to be compared. That its numbers are small stands
// in the contracts: `more` and `view_by` make it of larger ones on the way.
#[derive(Clone, Copy)]
pub struct View {
    pub x: u64,
    pub look: u64,
    pub last: u64,
    pub at: usize,
}

// A byte of the code, and where the next stands.
#[derive(Clone, Copy)]
pub struct Fetched {
    pub byte: u64,
    pub at: usize,
}

// What a pel gives: whether it was the expected one, the pel itself, what is in sight then, and what the writer gives.
// The last three are there for either.
#[derive(Clone, Copy)]
pub struct Told {
    pub expected: bool,
    pub p: u8,
    pub view: View,
    pub pel: Pel<Top>,
}

// The byte at a place; past the end it is 0.
pub fn fetch(code: &[u8], at: usize) -> Fetched
    requires { at ≤ length code.now }
    ensures { (result.byte ≡ get_or (drop at code.now) 0 0) × (result.byte ≤ 255)
        × (drop result.at code.now ≡ drop 1 (drop at code.now))
        × (result.at ≤ length code.now) }
{
    match code.get(at) {
        Some(b) => Fetched {
            byte: *b as u64,
            at: at + 1,
        },
        None => Fetched { byte: 0, at },
    }
}

// The bits that a byte brings after the byte b.
pub fn bits_after(b: u64) -> u64
    ensures { result ≡ bits b }
{
    if b == 255 {
        return 7;
    }
    8
}

impl View {
    // The first two bytes.
    pub fn start(code: &[u8]) -> Self
        ensures { (sight_of result 4096 code.now ≡ opened code.now)
            × (result.at ≤ length code.now) × (result.look ≤ 7) × (result.x < 2 ^ 32) × (result.last ≤ 255) }
    {
        let a = fetch(code, 0);
        let b = fetch(code, a.at);
        let n = bits_after(a.byte);
        View {
            x: a.byte * octets::power(n) + b.byte,
            look: n - 4,
            last: b.byte,
            at: b.at,
        }
    }

    // One byte more. The remainder does nothing on a code that was written; on any other it keeps x in its register.
    pub fn more(self, code: &[u8]) -> Self
        requires { (self.at ≤ length code.now) × (self.look ≤ 15) × (self.x < 2 ^ 32) }
        ensures { ((w : ℕ) → sight_of result w code.now ≡ law.more (sight_of self w code.now))
            × (result.at ≤ length code.now) × (result.x < 2 ^ 32) × (result.last ≤ 255) }
    {
        let f = fetch(code, self.at);
        let n = bits_after(self.last);
        View {
            x: (self.x * octets::power(n) + f.byte) % 4294967296,
            look: self.look + n,
            last: f.byte,
            at: f.at,
        }
    }

    // After expected pels with no shift, whose sizes add up to n.
    pub fn still(self, n: u64) -> Self
        requires { (self.look ≤ 7) × (n * 2 ^ self.look ≤ self.x) × (self.x < 2 ^ 32) }
        ensures { result ≡ view_by n self }
    {
        let part = n * octets::power(self.look);
        View {
            x: self.x - part,
            ..self
        }
    }

    // How much expected pels may take, beside a writer of that width: no shift, and all of them told by what is in
    // sight.
    pub fn room(self, wide: u64) -> u64
        requires { (0x1000 ≤ wide) × (self.look ≤ 7) }
        ensures { (0x1000 + result ≤ wide) × (result * 2 ^ self.look ≤ self.x) }
    {
        let still = wide - 0x1000;
        let told = self.x >> self.look;
        still.min(told)
    }

    // After k shifts: bytes are read until they reach that far.
    pub fn advance(self, code: &[u8], k: u64) -> Self
        requires { (self.at ≤ length code.now) × (self.look ≤ 7) × (self.x < 2 ^ 32) × (k ≤ 12) }
        ensures { ((w : ℕ) → sight_of result (w * 2 ^ k) code.now ≡ seeks k
            (sight_of self w code.now)) × (result.at ≤ length code.now) × (result.look ≤ 7)
            × (result.x < 2 ^ 32) }
    {
        let mut v = self;
        // A byte brings eight bits or seven, so that the number of turns is not known before.
        while v.look < k {
            v = v.more(code);
        }
        View {
            look: v.look - k,
            ..v
        }
    }
}

// The pel that is the expected one, or the other.
fn pel_told(e: u8, expected: bool) -> u8
    ensures { (result ≡ pel_of (e % 2) expected) × (result ≤ 1) }
{
    if expected {
        return e % 2;
    }
    1 - e % 2
}

// One pel: the code tells it, and the writer codes it.
pub fn read_pel(coder: Top, view: View, code: &[u8], e: u8) -> Told
    requires { Ready (lift (bottom_of coder) []) × (coder.width ≤ coder.top) × LawfulEntry e
        × (coder.count < max_shifts) × (view.at ≤ length code.now) × (view.look ≤ 7) × (view.x < 2 ^ 32) }
    ensures { ReadPel coder view code.now e result }
{
    let q = estimate::row_of(e);
    let part = q * octets::power(view.look);
    if part <= view.x {
        let rest = view.still(q);
        if 0x1000 + q <= coder.width {
            return Told {
                expected: true,
                p: pel_told(e, true),
                view: rest,
                pel: row::still_pel(coder, q),
            };
        }
        let v = coder.pel(q, true);
        return Told {
            expected: true,
            p: pel_told(e, true),
            view: rest.advance(code, v.shifts),
            pel: row::moved_pel(v, estimate::next_entry(e, true)),
        };
    }
    let v = coder.pel(q, false);
    Told {
        expected: false,
        p: pel_told(e, false),
        view: view.advance(code, v.shifts),
        pel: row::moved_pel(v, estimate::next_entry(e, false)),
    }
}
