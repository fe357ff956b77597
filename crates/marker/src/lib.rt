// A marker in a code: what the coder never writes.
#![tactic(auto)]

ghost use Rattle.std.specs.Prelude.{◌≡◌};
ghost use Rattle.marker.specs.Marker.{marked};

// Somewhere a byte of 90 or more stands just after an FF. It stays outside the read that asks, where its loop would
// have no register for its place.
#[inline(never)]
pub fn marked(code: &[u8]) -> bool
    ensures { result ≡ marked code.now }
{
    code.windows(2)
        .any(|pair| pair[0] == 0xFF && pair[1] >= 0x90)
}
