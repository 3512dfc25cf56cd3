// lists: the three lists of slots in a pool's header, changed as a step changes them: the first waiting slot leaves, to be complete
// or to be given up; a child's slot joins, open or bounded. And the lowest slot that no list names.
#![tactic(auto)]

ghost use Rattle.std.specs.Prelude.{◌≡◌, ◌+◌, ◌*◌, ◌<◌, min, get_or, MatchOption};
ghost use Rattle.base.specs.Lists.{mem};
ghost use Rattle.rules.specs.Image.{list_in};
ghost use Rattle.settings.specs.Numbers.{number_of};
ghost use Rattle.heads.specs.Lists.{Changes};
ghost use Rattle.lists.specs.Header.{in_use, LowestFree};
ghost use Rattle.lists.specs.Moves.{CountedOn, Finished, Forgotten, Enlisted, Joined};

use heads::Pool;
use poolparts::next_number;
use settings::{MOST_LISTED, Scheduler, SlotList};
use words::byte;

// How many slots a list has: what is counted, or its room if that is less.
fn list_length(p: &[u8], list: SlotList) -> usize
    ensures { result ≡ min (get_or p.now (12 + number_of list) 0) 64 }
{
    (byte(p, list.counted_at()) as usize).min(MOST_LISTED)
}

// Is slot i in a list?
fn in_list(p: &[u8], list: SlotList, i: usize) -> bool
    ensures { result ≡ mem i (list_in (16 + 64 * number_of list) (get_or p.now (12 + number_of list) 0) p.now) }
{
    let at = list.starts_at().min(p.len());
    let n = list_length(p, list);
    p[at..].iter().take(n).any(|x| i == *x as usize)
}

// Does a list name slot i?
#[tactic(auto, using(crate::specs::Header::three))]
fn in_use(p: &[u8], i: usize) -> bool
    ensures { result ≡ mem i (in_use p.now) }
{
    in_list(p, SlotList::Waiting, i)
        || in_list(p, SlotList::Complete, i)
        || in_list(p, SlotList::Bounded, i)
}

// The lowest of n slots that no list names, if there is one.
pub fn lowest_free(p: &[u8], n: usize) -> Option<usize>
    ensures { MatchOption result (LowestFree p.now n n) (λ i. (i < n) × LowestFree p.now n i) }
{
    (0..n).find(|i| !in_use(p, *i))
}

// The next model number is one more.
fn count_on(pool: &mut Pool<'_>)
    ensures { Changes CountedOn pool.old.bytes pool.new.bytes }
{
    let bytes = &mut *pool.bytes;
    let next = next_number(bytes) + 1;
    bytes[8..12].copy_from_slice(&next.to_le_bytes()[..4]);
}

// The first waiting slot goes to the back of the complete ones.
pub fn finish(pool: &mut Pool<'_>)
    ensures { Changes Finished pool.old.bytes pool.new.bytes }
{
    let slot = pool.bytes[SlotList::Waiting.starts_at()] as u64;
    pool.pop(SlotList::Waiting);
    pool.push_back(SlotList::Complete, slot);
}

// The first waiting slot goes.
pub fn forget(pool: &mut Pool<'_>)
    ensures { Changes Forgotten pool.old.bytes pool.new.bytes }
{
    pool.pop(SlotList::Waiting);
}

// The slot of a child joins the bounded ones, or the waiting ones where the scheduler says.
fn enlist(pool: &mut Pool<'_>, slot: u64, cut: bool)
    ensures { Changes (Enlisted slot cut) pool.old.bytes pool.new.bytes }
{
    if cut {
        pool.push_back(SlotList::Bounded, slot);
        return;
    }
    match Scheduler::of_byte(pool.bytes[5] as u64) {
        Scheduler::Fifo => pool.push_back(SlotList::Waiting, slot),
        Scheduler::Lifo => pool.push_front(SlotList::Waiting, slot),
    }
}

// The slot of a child joins, and the next number is one more.
pub fn join(pool: &mut Pool<'_>, slot: u64, cut: bool)
    ensures { Changes (Joined slot cut) pool.old.bytes pool.new.bytes }
{
    enlist(pool, slot, cut);
    count_on(pool);
}
