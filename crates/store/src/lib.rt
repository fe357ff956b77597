// Lent buffers: bytes stored at a moving place, a buffer cleared, and the front part handed back.
#![tactic(auto)]

ghost use Rattle.std.specs.Prelude.{◌≡◌, ◌+◌, ◌≤◌, ◌<◌, length};
ghost use Rattle.std.proofs.Math.Seq.{paste};
ghost use Rattle.limits.specs.Limits.{farthest};
ghost use Rattle.store.specs.Store.{cleared, front, store_at, stores};

// All of the buffer zero.
pub fn clear(out: &mut [u8])
    ensures { out.new ≡ cleared out.old }
{
    out.fill(0);
}

// The byte after the first `at`, where there is room for it; the very first, which is no part of the code, is left out.
pub fn put(out: &mut [u8], at: usize, b: u8) -> usize
    requires { at < farthest }
    ensures { (result ≡ at + 1) × (out.new ≡ store_at out.old at b) }
{
    if at == 0 {
        return 1;
    }
    if at - 1 < out.len() {
        out[at - 1] = b;
        return at + 1;
    }
    at + 1
}

// The last bytes of a code, one after another.
pub fn put_last(out: &mut [u8], at: usize, bytes: &[u8]) -> usize
    requires { at + length bytes.now ≤ farthest }
    ensures { (result ≡ at + length bytes.now) × (out.new ≡ stores out.old at bytes.now) }
{
    let mut next = at;
    for byte in bytes {
        next = put(out, next, *byte);
    }
    next
}

// A row, at a place of the buffer.
pub fn put_row(out: &mut [u8], from: usize, row: &[u8])
    requires { from + length row.now ≤ length out.old }
    ensures { out.new ≡ paste out.old from row.now (length row.now) }
{
    out[from..from + row.len()].copy_from_slice(row);
}

// The front part of the caller's own buffer: its first n bytes, or the empty part where n is more than its length.
pub fn front_of(buf: &[u8], n: usize) -> &[u8]
    ensures { result.now ≡ front n buf.now }
{
    buf.get(..n).unwrap_or(&buf[..0])
}
