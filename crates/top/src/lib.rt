// The byte rules with the code string at the top of the interval, as software has it: an expected pel with no shift
// changes the width alone.
#![tactic(auto)]

ghost use Rattle.std.specs.Prelude.{◌≡◌, ◌≤◌, ◌<◌, ◌^◌};
ghost use Rattle.limits.specs.Limits.{max_shifts};
ghost use Rattle.interval.specs.Interval.{decision, part_of, grown, doublings};
ghost use Rattle.octets.specs.declared.Coder.{Coder};
ghost use Rattle.top.specs.Top.{bottom_of, above_of, narrowed, within};
ghost use Rattle.top.specs.TopLaws.{top_laws};

use interval::Interval;
use octets::{Coder, Engine, Put, Settled};

// The registers of a coder whose code string points at the top of the interval: what of the top is in no byte yet, the
// width, the shifts so far, the shifts to go until a byte goes out, and the byte that may still take a carry.
#[derive(Clone, Copy)]
pub struct Top {
    pub top: u64,
    pub width: u64,
    pub count: u64,
    pub until: u64,
    pub held: u64,
}

// The registers with all the shifts of a pel done and none of its bytes made, and those shifts.
#[derive(Clone, Copy)]
struct Grown {
    coder: Top,
    shifts: u64,
}

impl Top {
    // The pel's part: the expected pel keeps the top, the unexpected pel brings it down to the end of the lower part.
    // (At the bottom it is the other way round, so this and `grow` are no copies of the interval's.)
    fn part(self, q: u64, expected: bool) -> Self
        requires { (q ≤ self.width) × (self.width ≤ self.top) }
        ensures { (bottom_of result ≡ within (part_of (decision q expected) (bottom_of self).interval) self)
            × (result.width ≤ result.top) × (result.top ≤ self.top) }
    {
        if expected {
            return self.still(q);
        }
        Top {
            top: self.top - (self.width - q),
            width: q,
            ..self
        }
    }

    // The top and the width doubled while the width is below 1000 hex: all at once.
    fn grow(self) -> Grown
        requires { (1 ≤ self.width) × (self.width < 8192) × (self.width ≤ self.top) × (self.top < 2 ^ 26)
            × (self.count < max_shifts) }
        ensures { (bottom_of result.coder ≡ within (grown 12 (bottom_of self).interval) self)
            × (result.coder.width ≤ result.coder.top) × (result.shifts ≡ doublings 12 self.width) }
    {
        let k = interval::shifts_for(self.width);
        let coder = Top {
            top: self.top << k,
            width: self.width << k,
            count: self.count + k,
            ..self
        };
        Grown { coder, shifts: k }
    }
}

// The second engine: the string moves up to the top, and down again.
impl Engine for Top {
    ghost bottom_of = { bottom_of };

    ghost above_of = { above_of };

    ghost Sound = { λ t. t.width ≤ t.top };

    ghost CanStill = { λ n t. n ≤ t.width };

    ghost after_still = { narrowed };

    ghost laws = { top_laws };

    fn above(c: Coder) -> Self {
        let v = c.interval;
        Top {
            top: v.low + v.width,
            width: v.width,
            count: v.count,
            until: c.until,
            held: c.held,
        }
    }

    fn bottom(self) -> Coder {
        let interval = Interval {
            low: self.top - self.width,
            width: self.width,
            count: self.count,
        };
        Coder {
            interval,
            until: self.until,
            held: self.held,
        }
    }

    fn width(self) -> u64 {
        self.width
    }

    // The width alone changes.
    fn still(self, n: u64) -> Self {
        Top {
            width: self.width - n,
            ..self
        }
    }

    #[inline(always)]
    fn pel(self, q: u64, expected: bool) -> Put<Self> {
        let v = self.part(q, expected).grow();
        let k = v.shifts;
        let next = v.coder;
        let until = next.until;
        if k < until {
            return Put {
                coder: Top {
                    until: until - k,
                    ..next
                },
                shifts: k,
                bytes: Settled::Nothing,
            };
        }
        let below = Interval {
            low: next.top - next.width,
            width: next.width,
            count: next.count,
        };
        let p = octets::settle(below, next.held, k - until, k);
        Put {
            coder: Top::above(p.coder),
            shifts: k,
            bytes: p.bytes,
        }
    }
}
