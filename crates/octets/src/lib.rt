// Numbers in bytes, read and written: entries of eight bytes, highest byte first, and tables of entries and of single bytes. What a table
// leaves of its room is written with zeros.
#![tactic(auto)]

ghost use Rattle.std.specs.Prelude.{◌≡◌, map, ◌+◌, ◌*◌, ◌≤◌, length, take, drop};
ghost use Rattle.base.specs.Lists.{flat};
ghost use Rattle.rules.specs.Image.{padded};
ghost use Rattle.octets.specs.Patch.{patched};
ghost use Rattle.octets.specs.Words.{numbers_at, octets, octet};

use byteorder::{BigEndian, ByteOrder};

// What a table leaves of its room.
const UNUSED: u8 = 0;

// As many entries as the table has, from the bytes from a place on.
pub fn load_words(s: &[u8], at: usize, t: &mut [u64])
    requires { at + 8 * length t.old ≤ length s.now }
    ensures { t.new ≡ numbers_at s.now at (length t.old) }
{
    BigEndian::read_u64_into(&s[at..at + 8 * t.len()], t);
}

// The same, a byte for each entry.
pub fn load_bytes(s: &[u8], at: usize, t: &mut [u64])
    requires { at + length t.old ≤ length s.now }
    ensures { t.new ≡ take (length t.old) (drop at s.now) }
{
    for (i, x) in t.iter_mut().enumerate() {
        *x = u64::from(s[at + i]);
    }
}

// The entries of a table, into the bytes from a place on, and zeros for the rest of its room.
pub fn store_words(s: &mut [u8], at: usize, room: usize, t: &[u64])
    requires { (at + 8 * room ≤ length s.old) × (length t.now ≤ room) }
    ensures { s.new ≡ patched at (padded (8 * room) (flat (map octets t.now))) s.old }
{
    let end = at + 8 * t.len();
    BigEndian::write_u64_into(t, &mut s[at..end]);
    s[end..at + 8 * room].fill(UNUSED);
}

// The same, the low byte of each entry.
pub fn store_bytes(s: &mut [u8], at: usize, room: usize, t: &[u64])
    requires { (at + room ≤ length s.old) × (length t.now ≤ room) }
    ensures { s.new ≡ patched at (padded room (flat (map octet t.now))) s.old }
{
    for (i, x) in t.iter().enumerate() {
        s[at + i] = (*x % 256) as u8;
    }
    s[at + t.len()..at + room].fill(UNUSED);
}
