// The byte rules: one pel, and the end.
#![tactic(auto)]

ghost use Rattle.std.specs.Prelude.{◌≡◌, [], length, take, ℕ, ◌+◌, ◌-◌, ◌*◌, ◌≤◌, ◌<◌, ◌^◌};
ghost use Rattle.limits.specs.Limits.{max_shifts};
ghost use Rattle.interval.specs.Interval.{decision, part_of, doublings};
ghost use Rattle.octets.specs.Octets.{start, pel, byte, finish, follows, ended};
ghost use Rattle.octets.specs.Fit.{Rest, Ready};
ghost use Rattle.octets.specs.Loops.{steps};
ghost use Rattle.octets.specs.Lift.{Out, Small, lift, bytes_of, settled_of, there};
ghost use Rattle.octets.specs.Runs.{still_by};
ghost use Rattle.octets.specs.EngineLaws.{EngineLaws};
ghost use Rattle.octets.specs.CoderLaws.{CanStill, coder_laws};
ghost use Rattle.octets.specs.declared.Coder.{Coder};

use interval::Interval;

// The registers: the interval, the shifts to go until a byte goes out, and the byte that may still take a carry. Their
// bounds (`Ready`) stand in the contracts: definitions make such registers of any numbers, as `still_by` does.
#[derive(Clone, Copy)]
pub struct Coder {
    pub interval: Interval,
    pub until: u64,
    pub held: u64,
}

// A byte that went out: the byte settled, the byte now held, what is left of the lower end, and the bits that the held
// byte brought.
#[derive(Clone, Copy)]
pub struct Byte {
    pub settled: u8,
    pub held: u64,
    pub low: u64,
    pub bits: u64,
}

// The bytes that a pel settles: two at the most.
#[derive(Clone, Copy)]
pub enum Settled {
    Nothing,
    One(u8),
    Two(u8, u8),
}

impl Settled {
    // How many they are.
    pub fn len(self) -> usize
        ensures { result ≡ length (bytes_of self) }
    {
        match self {
            Settled::Nothing => 0,
            Settled::One(_) => 1,
            Settled::Two(_, _) => 2,
        }
    }
}

// What a pel gives: the registers, its shifts, and the bytes that it settled.
#[derive(Clone, Copy)]
pub struct Put<E> {
    pub coder: E,
    pub shifts: u64,
    pub bytes: Settled,
}

// The last bytes, with what follows the very last: `count` of them, for `as_slice`. An array and its length, since
// there is no heap here, and no library but the toolchain's own.
#[derive(Clone, Copy)]
pub struct Ended {
    pub bytes: [u8; 6],
    pub count: usize,
}

// 2 to the power j.
pub fn power(j: u64) -> u64
    requires { j < 64 }
    ensures { result ≡ 2 ^ j }
{
    1u64 << j
}

// A byte goes out; the lower end is at the given scale.
pub fn byte_out(low: u64, held: u64, scale: u64) -> Byte
    requires { (held ≤ 255) × (1 ≤ scale) × (scale ≤ 4096) × (low < 33554432 * scale) }
    ensures { Small scale result × ((c : ℕ) → low ≡ c * scale → Out held c scale result) }
{
    if held == 255 {
        let unit = 131072 * scale;
        return Byte {
            settled: 255,
            held: low / unit,
            low: low % unit,
            bits: 7,
        };
    }
    let whole = 16777216 * scale;
    let b = held + low / whole;
    let rest = low % whole;
    if b == 255 {
        let unit = 131072 * scale;
        return Byte {
            settled: 255,
            held: rest / unit,
            low: rest % unit,
            bits: 7,
        };
    }
    let unit = 65536 * scale;
    Byte {
        settled: b as u8,
        held: rest / unit,
        low: rest % unit,
        bits: 8,
    }
}

// The registers after a byte and i shifts more; `next` has the width and the count then.
fn after_byte(next: Interval, b: Byte, i: u64) -> Coder
    requires { i ≤ b.bits }
    ensures { result ≡ record {
      interval = record { low = b.low; width = next.width; count = next.count };
      until =
          b.bits - i;
      held = b.held;
    } }
{
    Coder {
        interval: Interval { low: b.low, ..next },
        until: b.bits - i,
        held: b.held,
    }
}

// The bytes of a pel whose last byte goes out before its last j shifts: `next` is the interval after all k of them.
#[inline(always)]
pub fn settle(next: Interval, held: u64, j: u64, k: u64) -> Put<Coder>
    requires { (held ≤ 255) × (j ≤ 11) × (next.low < 33554432 * 2 ^ j) }
    ensures { (result.shifts ≡ k) × ((c a s : ℕ) → next.low ≡ c * 2 ^ j
        → next.width ≡ a * 2 ^ j → next.count ≡ s + j → steps j (byte (there [] c a s held)) ≡ lift result.coder
        (settled_of result)) }
{
    let b = byte_out(next.low, held, power(j));
    if j < b.bits {
        return Put {
            coder: after_byte(next, b, j),
            shifts: k,
            bytes: Settled::One(b.settled),
        };
    }
    let i = j - b.bits;
    let d = byte_out(b.low, b.held, power(i));
    Put {
        coder: after_byte(next, d, i),
        shifts: k,
        bytes: Settled::Two(b.settled, d.settled),
    }
}

// The registers of an engine, wherever in the interval its code string points: they stand for a coder, which is what
// they say with the string at the bottom.
pub trait Engine: Copy {
    // the coder that they stand for, and the registers that stand for a coder
    ghost bottom_of: { Self → Coder };

    ghost above_of: { Coder → Self };

    // what else holds of them
    ghost Sound: { Self → Type 0 };

    // expected pels with no shift, whose sizes add up to a number: where they may be taken, and the registers then
    ghost CanStill: { ℕ → Self → Type 0 };

    ghost after_still: { ℕ → Self → Self };

    // The registers for a coder.
    fn above(c: Coder) -> Self
        requires { (c.interval.low < 2 ^ 25) × (c.interval.width < 8192) }
        ensures { result ≡ above_of c };

    // The coder for the registers.
    fn bottom(self) -> Coder
        requires { Sound self }
        ensures { result ≡ bottom_of self };

    // The width of the interval.
    fn width(self) -> u64
        ensures { result ≡ (bottom_of self).interval.width };

    // Expected pels with no shift, whose sizes add up to n.
    fn still(self, n: u64) -> Self
        requires { CanStill n self }
        ensures { result ≡ after_still n self };

    // One pel.
    fn pel(self, q: u64, expected: bool) -> Put<Self>
        requires { Ready (lift (bottom_of self) []) × Sound self × (1 ≤ q) × (q ≤ 0xAC1)
            × ((bottom_of self).interval.count < max_shifts) }
        ensures { (pel (decision q expected) (lift (bottom_of self) []) ≡ lift (bottom_of result.coder)
            (settled_of result)) × Sound result.coder
            × (result.shifts ≡ doublings 12 (part_of (decision q expected) (bottom_of self).interval).width) };

    ghost laws: { EngineLaws bottom_of above_of Sound CanStill after_still };
}

// The first engine: the string stays at the bottom.
impl Engine for Coder {
    ghost bottom_of = { λ c. c };

    ghost above_of = { λ c. c };

    ghost Sound = { λ c. Unit {0} };

    ghost CanStill = { CanStill };

    ghost after_still = { still_by };

    ghost laws = { coder_laws };

    fn above(c: Coder) -> Self {
        c
    }

    fn bottom(self) -> Coder {
        self
    }

    fn width(self) -> u64 {
        self.interval.width
    }

    fn still(self, n: u64) -> Self {
        let v = self.interval;
        let interval = Interval {
            low: v.low + n,
            width: v.width - n,
            ..v
        };
        Coder { interval, ..self }
    }

    fn pel(self, q: u64, expected: bool) -> Put<Self> {
        let v = self.interval.code(q, expected);
        let k = v.shifts;
        let next = v.interval;
        let until = self.until;
        if k < until {
            return Put {
                coder: Coder {
                    interval: next,
                    until: until - k,
                    held: self.held,
                },
                shifts: k,
                bytes: Settled::Nothing,
            };
        }
        settle(next, self.held, k - until, k)
    }
}

impl Coder {
    pub fn start() -> Self
        ensures { lift result [] ≡ start }
    {
        Coder {
            interval: Interval::whole(),
            until: 12,
            held: 0,
        }
    }

    // The end: zeros shifted in, and bytes made, until they cover every bit of the lower end; one byte 00 after a last
    // FF.
    pub fn finish(self) -> Ended
        requires { Rest (lift self []) }
        ensures { (take result.count result.bytes ≡ ended (finish (lift self []))) × (1 ≤ result.count)
            × (result.count ≤ 6) }
    {
        let mut low = self.interval.low;
        let mut until = self.until;
        let mut held = self.held;
        let mut left = 24 - until;
        let mut bytes = [0u8; 6];
        let mut n: usize = 0;
        // A byte takes eight bits or seven, so that their number is not known before.
        while 0 < left {
            let b = byte_out(low * power(until), held, 1);
            bytes[n] = b.settled;
            low = b.low;
            until = b.bits;
            held = b.held;
            left = left.saturating_sub(until);
            n += 1;
        }
        bytes[n] = held as u8;
        bytes[n + 1] = 0;
        Ended {
            bytes,
            count: n + 1 + following(held),
        }
    }
}

impl Ended {
    // The last bytes alone.
    pub fn as_slice(&self) -> &[u8]
        requires { self.now.count ≤ 6 }
        ensures { result.now ≡ take self.now.count self.now.bytes }
    {
        &self.bytes[..self.count]
    }
}

// How many bytes follow a last byte: one after FF, which is 00.
fn following(b: u64) -> usize
    ensures { (result ≡ length (follows b)) × (result ≤ 1) }
{
    if b == 0xff { 1 } else { 0 }
}
