// words: bytes and numbers of 16 and of 32 bits of a text, low byte first. Every reader is total: what is past the end reads as 0.
#![tactic(auto)]

ghost use Rattle.std.specs.Prelude.{◌≡◌, ◌+◌, ◌-◌, ◌*◌, ◌<◌, ◌≤◌, length, get_or};
ghost use Rattle.rules.specs.Reading.{num};

// The byte at a place.
pub fn byte(s: &[u8], at: usize) -> u64
    ensures { (result ≡ get_or s.now at 0) × (result < 256) }
{
    s.get(at).map_or(0, |b| u64::from(*b))
}

// The 16-bit number at a place. Behind the end nothing is added to the place, since the sum might not fit.
pub fn num16(s: &[u8], at: usize) -> u64
    ensures { (result ≡ num s.now at) × (result < 65536) }
{
    if at < s.len() {
        byte(s, at) + 256 * byte(s, at + 1)
    } else {
        0
    }
}

// The 32-bit number at a place.
pub fn num32(s: &[u8], at: usize) -> u64
    ensures { (result ≡ num s.now at + 65536 * num s.now (at + 2)) × (result < 4294967296) }
{
    if at < s.len() {
        num16(s, at) + 65536 * num16(s, at + 2)
    } else {
        0
    }
}

// How many bytes stand from a place on.
pub fn rest(s: &[u8], at: usize) -> usize
    ensures { (result ≡ length s.now - at) × (result ≤ length s.now) }
{
    s.len().saturating_sub(at)
}
