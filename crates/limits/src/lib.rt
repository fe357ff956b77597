// The limits of document 01, as the code uses them; specs/ has them as the rules do.
#![tactic(auto)]

// A school or class number is 1 to this.
pub const MAX_KEY: u64 = 65535;

// Open pages.
pub const PAGES: usize = 4;

// Class places.
pub const PLACES: usize = 8;

// A page's width is 1 to this.
pub const MAX_WIDTH: u64 = 2048;

// A band's rows are 1 to this.
pub const MAX_ROWS: u64 = 64;

// No code is longer.
pub const MAX_CODE: usize = 32768;

// A table has a byte for each context.
pub const CONTEXTS: usize = 128;

// The bytes of the widest row.
pub const ROW: usize = (MAX_WIDTH as usize + 7) / 8;
