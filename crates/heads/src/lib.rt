// heads: what calls write into a pool beside sheets: the lists of slots in its header, changed in place, and slots given back. Of a
// list that is empty or full where it should not be, nothing is promised but that the call is safe.
#![tactic(auto)]

ghost use Rattle.std.specs.Prelude.{◌≡◌, ◌+◌, ◌*◌, ◌≤◌, ◌<◌, length, replicate};
ghost use Rattle.octets.specs.Patch.{patched};
ghost use Rattle.heads.specs.Shift.{moved_down, moved_up};
ghost use Rattle.heads.specs.Lists.{Changes, Popped, PushedBack, PushedFront};
ghost use Rattle.settings.specs.Numbers.{number_of};
ghost use Rattle.limits.specs.Limits.{limits_of, slot_at, slot_size};

use limits::Limits;
use settings::{MOST_LISTED, SlotList};

// The list at a place loses its first slot; those behind it move down.
fn move_down(pool: &mut [u8], at: usize)
    requires { (at < 1000000) × (at + 64 ≤ length pool.old) }
    ensures { pool.new ≡ moved_down at pool.old }
{
    pool.copy_within(at + 1..at + 64, at);
    pool[at + 63] = 0;
}

// A slot comes before those of the list at a place, which move up.
fn move_up(pool: &mut [u8], at: usize, slot: u8)
    requires { (at < 1000000) × (at + 64 ≤ length pool.old) }
    ensures { pool.new ≡ moved_up at slot pool.old }
{
    pool.copy_within(at..at + 63, at + 1);
    pool[at] = slot;
}

// A pool, of which the head is there.
#[derive(Drop)]
pub struct Pool<'a> {
    pub bytes: &'a mut [u8],
    pub ghost headed: { 208 ≤ length bytes.now },
}

impl Pool<'_> {
    // The first slot of a list goes.
    pub fn pop(&mut self, list: SlotList)
        ensures { Changes (Popped (number_of list)) self.old.bytes self.new.bytes }
    {
        let count = list.counted_at();
        let n = self.bytes[count];
        if n == 0 {
            return;
        }
        move_down(self.bytes, list.starts_at());
        self.bytes[count] = n - 1;
    }

    // A slot joins a list at its back.
    pub fn push_back(&mut self, list: SlotList, slot: u64)
        ensures { Changes (PushedBack (number_of list) slot) self.old.bytes self.new.bytes }
    {
        let count = list.counted_at();
        let n = self.bytes[count] as usize;
        if n >= MOST_LISTED {
            return;
        }
        self.bytes[list.starts_at() + n] = (slot % 256) as u8;
        self.bytes[count] = (n + 1) as u8;
    }

    // A slot joins a list at its front.
    pub fn push_front(&mut self, list: SlotList, slot: u64)
        ensures { Changes (PushedFront (number_of list) slot) self.old.bytes self.new.bytes }
    {
        let count = list.counted_at();
        let n = self.bytes[count] as usize;
        if n >= MOST_LISTED {
            return;
        }
        move_up(self.bytes, list.starts_at(), (slot % 256) as u8);
        self.bytes[count] = (n + 1) as u8;
    }
}

// Zeros everywhere.
pub fn clear(s: &mut [u8])
    ensures { s.new ≡ replicate (length s.old) 0 }
{
    s.fill(0);
}

// Slot i of a pool whose sheets have room for so many elements, keys and facts is given back: all zero.
pub fn clear_slot(pool: &mut [u8], i: usize, limits: Limits)
    requires { slot_at (limits_of limits) i + slot_size (limits_of limits) ≤ length pool.old }
    ensures { pool.new ≡ patched (slot_at (limits_of limits) i) (replicate (slot_size (limits_of limits)) 0) pool.old }
{
    let a = limits.slot_at(i);
    let e = a + limits.slot_size();
    clear(&mut pool[a..e]);
}
