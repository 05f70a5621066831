// Buffers. Where no proof stands each byte is the filler.

pub const FILLER: u8 = 165;

/// Whether no byte was written. The fold has no way out in the middle, so that the compiler can take many bytes at a time: with `all` the tests
/// that look at a whole buffer after each call took three to eight times as long.
pub fn untouched(s: &[u8]) -> bool {
    s.iter().fold(true, |ok, b| ok & (*b == FILLER))
}
