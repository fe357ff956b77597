// The interval by value: one pel coded, the doublings counted.
#![tactic(auto)]

ghost use Rattle.std.specs.Prelude.{◌≡◌, ◌*◌, ◌≤◌, ◌<◌, ◌^◌};
ghost use Rattle.limits.specs.Limits.{max_width, max_shifts};
ghost use Rattle.interval.specs.Interval.{whole, decision, part_of, grown, doublings, coded};

// The lower end (what of it is in no byte yet), the width, and the shifts so far.
#[derive(Clone, Copy)]
pub struct Interval {
    pub low: u64,
    pub width: u64,
    pub count: u64,
}

// The interval after a pel, and the shifts of that pel.
#[derive(Clone, Copy)]
pub struct Coded {
    pub interval: Interval,
    pub shifts: u64,
}

// How many doublings bring a width to 1000 hex or more: its highest bit tells. Of 64 bits, 1000 hex has 51 leading
// zeros.
pub fn shifts_for(width: u64) -> u64
    requires { (1 ≤ width) × (width < 8192) }
    ensures { (result ≡ doublings 12 width) × (result ≤ 12) }
{
    width.leading_zeros() as u64 - 51
}

// How many of n expected pels of the size q fit into so much room. Where all do, no division is made.
pub fn fits(n: usize, q: u64, room: u64) -> usize
    requires { (n ≤ max_width) × (1 ≤ q) × (q ≤ 0xAC1) × (room < 8192) }
    ensures { (result ≤ n) × (result * q ≤ room) }
{
    if (n as u64) * q <= room {
        return n;
    }
    (room / q) as usize
}

impl Interval {
    pub fn whole() -> Self
        ensures { result ≡ whole }
    {
        Interval {
            low: 0,
            width: 0x1000,
            count: 0,
        }
    }

    // The expected pel takes the upper part, the unexpected pel the lower.
    pub fn part(self, q: u64, expected: bool) -> Self
        requires { (0x1000 ≤ self.width) × (q ≤ 0xAC1) × (self.low < 2 ^ 25) }
        ensures { result ≡ part_of (decision q expected) self }
    {
        if expected {
            return Interval {
                low: self.low + q,
                width: self.width - q,
                ..self
            };
        }
        Interval { width: q, ..self }
    }

    // Both doubled while the width is below 1000 hex: all at once.
    pub fn grow(self) -> Coded
        requires { (1 ≤ self.width) × (self.width < 8192) × (self.low < 2 ^ 26) × (self.count < max_shifts) }
        ensures { (result.interval ≡ grown 12 self) × (result.shifts ≡ doublings 12 self.width) }
    {
        let k = shifts_for(self.width);
        let low = self.low << k;
        let width = self.width << k;
        let count = self.count + k;
        let interval = Interval { low, width, count };
        Coded {
            interval,
            shifts: k,
        }
    }

    // One pel.
    pub fn code(self, q: u64, expected: bool) -> Coded
        requires { (0x1000 ≤ self.width) × (self.width < 8192) × (1 ≤ q) × (q ≤ 0xAC1) × (self.low < 2 ^ 25)
            × (self.count < max_shifts) }
        ensures { (result.interval ≡ coded (decision q expected) self)
            × (result.shifts ≡ doublings 12 (part_of (decision q expected) self).width) }
    {
        self.part(q, expected).grow()
    }
}
