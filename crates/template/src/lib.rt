// Packed rows, their pels, and the context that slides along a row.
#![tactic(auto)]

ghost use Rattle.std.specs.Prelude.{◌≡◌, ◌+◌, ◌*◌, ◌%◌, ◌≤◌, ◌<◌, ◌^◌, [], length, get_or};
ghost use Rattle.limits.specs.Limits.{max_width, max_rows, last_bytes};
ghost use Rattle.template.specs.Pels.{row_bytes, pel_at, pels_to, row_at, row_padded, band_padded};
ghost use Rattle.template.specs.Window.{Slid, parted};
ghost use Rattle.template.specs.Words.{Word};
ghost use Rattle.template.specs.White.{White, Under, Clear, white_window};

// The bytes of a row.
pub fn row_bytes(width: usize) -> usize
    requires { width + 7 < 2 ^ 64 }
    ensures { result ≡ row_bytes width }
{
    (width + 7) / 8
}

// The pel at x of a packed row: the leftmost is in the top bit.
pub fn pel_at(row: &[u8], x: usize) -> u8
    requires { x < 8 * length row.now }
    ensures { (result ≡ pel_at row.now x) × (result ≤ 1) }
{
    let b = row[x / 8];
    (b >> (7 - x % 8)) % 2
}

// Eight bytes from k on as one number, the first on top: one read for the machine.
fn word_at(row: &[u8], k: usize) -> u64
    requires { k + 8 ≤ length row.now }
    ensures { Word row.now k 8 result }
{
    u64::from_be_bytes(*row[k..k + 8].first_chunk().unwrap())
}

// The first eight bytes of a row that may have less: a missing byte counts as 0.
fn short_word(row: &[u8]) -> u64
    ensures { Word row.now 0 8 result }
{
    let mut w: u64 = 0;
    for i in 0..8 {
        let b = row.get(i).copied().unwrap_or(0);
        w = w << 8 | b as u64;
    }
    w
}

// Where the white pels from y on end, within the eight bytes from k on, which are w.
fn white_of(row: &[u8], k: usize, w: u64, y: usize) -> usize
    requires { Word row.now k 8 w × (k ≤ last_bytes) × (8 * k ≤ y) × (y < 8 * k + 64) }
    ensures { (y ≤ result) × (result ≤ 8 * k + 64) × White row.now y result }
{
    let mask = u64::MAX >> (y - 8 * k);
    let zeros = (w & mask).leading_zeros() as usize;
    8 * k + zeros
}

// The same, the bytes read here.
fn white_in(row: &[u8], k: usize, y: usize) -> usize
    requires { (k + 8 ≤ length row.now) × (k ≤ last_bytes) × (8 * k ≤ y) × (y < 8 * k + 64) }
    ensures { (y ≤ result) × (result ≤ 8 * k + 64) × White row.now y result }
{
    white_of(row, k, word_at(row, k), y)
}

// Where the white pels from x on end, in a row of so many bytes.
fn white_to(row: &[u8], bytes: usize, x: usize) -> usize
    requires { (bytes ≤ length row.now) × (bytes ≤ last_bytes) × (x < 8 * bytes) }
    ensures { (x ≤ result) × White row.now x result }
{
    if bytes < 8 {
        return white_of(row, 0, short_word(row), x);
    }
    let last = bytes - 8;
    let first = (x / 8).min(last);
    let mut y = white_in(row, first, x);
    for k in (first + 8..last).step_by(8) {
        if y < 8 * k {
            return y;
        }
        y = white_in(row, k, 8 * k);
    }
    if y < 8 * last || y == 8 * bytes {
        return y;
    }
    white_in(row, last, y)
}

// A packed row and its width in pels.
#[derive(Clone, Copy)]
pub struct Row<'a> {
    pub bytes: &'a [u8],
    pub width: usize,
    pub ghost fits: { width ≤ 8 * length bytes.now },
}

impl<'a> Row<'a> {
    // The pel at x, and 0 past the right edge.
    pub fn edge_pel(self, x: usize) -> usize
        ensures { (result ≡ get_or (pels_to self.entry.bytes.now self.entry.width) x 0) × (result ≤ 1) }
    {
        if x < self.width {
            return pel_at(self.bytes, x) as usize;
        }
        0
    }

    // The padding bits are zero bits.
    pub fn is_padded(self) -> bool
        requires { (1 ≤ self.width) × (self.width + 7 < 2 ^ 64)
            × (length self.bytes.now ≡ row_bytes self.width) }
        ensures { result ≡ row_padded self.entry.width self.entry.bytes.now }
    {
        let bytes = row_bytes(self.width);
        let spare = 8 * bytes - self.width;
        let end = self.bytes[bytes - 1] as usize;
        end % (1 << spare) == 0
    }

    // Where the pels from x on cease to lie under this row's white ones, up to two places to the right.
    pub fn under_to(self, x: usize) -> usize
        requires { (self.width ≤ max_width) × (x < self.width) }
        ensures { (x ≤ result) × (result ≤ self.entry.width)
            × Under (pels_to self.entry.bytes.now self.entry.width) x result }
    {
        let y = white_to(self.bytes, row_bytes(self.width), x);
        if self.width <= y {
            return self.width;
        }
        if y < x + 2 {
            return x;
        }
        y - 2
    }

    // Where the white pels of the row below, which has this row's width, end that lie under this row's white ones.
    pub fn run_to(self, row: &[u8], x: usize) -> usize
        requires { (self.width ≤ max_width) × (self.width ≤ 8 * length row.now) × (x < self.width) }
        ensures { (x ≤ result)
            × Clear row.now (pels_to self.entry.bytes.now self.entry.width) self.entry.width x result }
    {
        let over = self.under_to(x);
        let y = white_to(row, row_bytes(self.width), x);
        y.min(over)
    }
}

// The packed rows of a band. One of no rows can't be written, but `is_padded` may be asked of it.
#[derive(Clone, Copy)]
pub struct Band<'a> {
    pub pels: &'a [u8],
    pub width: usize,
    pub rows: usize,
    pub ghost some: { 1 ≤ width },
    pub ghost narrow: { width ≤ max_width },
    pub ghost few: { rows ≤ max_rows },
    pub ghost whole: { length pels.now ≡ rows * row_bytes width },
}

impl<'a> Band<'a> {
    // The row y.
    pub fn row(self, y: usize) -> Row<'a>
        requires { y < self.rows }
        ensures { (result.bytes.now ≡ row_at self.entry.width self.entry.pels.now y)
            × (result.width ≡ self.entry.width) }
    {
        let bytes = row_bytes(self.width);
        let from = y * bytes;
        Row {
            bytes: &self.pels[from..from + bytes],
            width: self.width,
        }
    }

    // The padding bits of every row are zero bits.
    pub fn is_padded(self) -> bool
        ensures { result ≡ band_padded self.entry.width self.entry.pels.now self.entry.rows }
    {
        for y in 0..self.rows {
            if !self.row(y).is_padded() {
                return false;
            }
        }
        true
    }
}

// What a pel's context is made of: the five pels of the row above, the two of this row.
#[derive(Clone, Copy)]
pub struct Window {
    pub above: usize,
    pub this: usize,
}

impl Window {
    // At the left edge.
    pub fn start(above: Row) -> Self
        ensures { Slid (pels_to above.entry.bytes.now above.entry.width) [] 0 result }
    {
        let a = above.edge_pel(2);
        let b = above.edge_pel(1);
        let c = above.edge_pel(0);
        Window {
            above: a + 2 * b + 4 * c,
            this: 0,
        }
    }

    // At x, behind a white run.
    pub fn white(above: Row, x: usize) -> Self
        requires { x ≤ max_width }
        ensures { result ≡ white_window (pels_to above.entry.bytes.now above.entry.width) x }
    {
        let a = above.edge_pel(x + 2);
        Window { above: a, this: 0 }
    }

    // From the context, as one register.
    pub fn of(cx: usize) -> Self
        ensures { result ≡ parted cx }
    {
        Window {
            above: cx / 4,
            this: cx % 4,
        }
    }

    // The context.
    pub fn context(self) -> usize
        requires { (self.above < 32) × (self.this < 4) }
        ensures { (parted result ≡ self) × (result < 128) }
    {
        4 * self.above + self.this
    }

    // At x + 1, after the pel at x.
    pub fn slide(self, above: Row, x: usize, pel: u8) -> Self
        requires { (x < max_width) × (pel ≤ 1) × (self.above < 32) × (self.this < 4) }
        ensures { (result.above
            ≡ (2 * self.above + get_or (pels_to above.entry.bytes.now above.entry.width) (x + 3) 0) % 32)
            × (result.this ≡ (2 * self.this + pel) % 4) }
    {
        let a = above.edge_pel(x + 3);
        let p = pel as usize;
        Window {
            above: (2 * self.above + a) % 32,
            this: (2 * self.this + p) % 4,
        }
    }
}
