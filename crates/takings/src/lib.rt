// takings: the call take. The book's check gives 1 to 10, then come 11, 12, the pool's soundness (13), 18 and 19; take copies the first
// sheet of a list, frees its slot and leaves later output bytes untouched.
#![tactic(auto)]

ghost use Rattle.std.specs.Prelude.{◌≡◌, ◌+◌, ◌*◌, ◌≤◌, ◌<◌, length, replicate};
ghost use Rattle.octets.specs.Patch.{patched};
ghost use Rattle.rules.specs.Calls.{TakePromise};
ghost use Rattle.refusals.specs.Numbers.{answer};
ghost use Rattle.settings.specs.Codes.{code_of_source};
ghost use Rattle.texts.specs.Heads.{ReadAs};
ghost use Rattle.settings.specs.Numbers.{number_of};
ghost use Rattle.heads.specs.Lists.{Popped};
ghost use Rattle.takings.specs.Moves.{copied};
ghost use Rattle.takings.specs.Take.{take_going, Took, Ready};
ghost use Rattle.takings.specs.Calls.{TookRest};

use book::check_book;
use heads::{Pool, clear_slot};
use limits::{LIMITS, SLOT};
use openings::check_length;
use poolcheck::pool_sound;
use refusals::Refusal;
use settings::{SlotList, Source};
use words::byte;

// The slot at a place, into the front of the output. It is copied here, byte by byte: `copy_from_slice` of a slot becomes a call of memmove,
// and where a loader binds that at its first call, take needs more stack than the 3 KB that are enough for it.
fn copy_slot(pool: &[u8], a: usize, out: &mut [u8])
    requires { (a + 2128 ≤ length pool.now) × (2128 ≤ length out.old) }
    ensures { out.new ≡ copied pool.now a 2128 out.old }
{
    for (j, to) in out[..SLOT].iter_mut().enumerate() {
        *to = pool[a + j];
    }
}

// The first sheet of a list goes out, from slot i.
fn give(pool: &mut [u8], list: SlotList, i: usize, out: &mut [u8])
    requires { ((i < 256) × (208 + 2128 * i + 2128 ≤ length pool.old)) × (2128 ≤ length out.old) }
    ensures { Popped (number_of list) (patched (208 + 2128 * i) (replicate 2128 0) pool.old) pool.new × (out.new ≡ copied pool.old (208 + 2128 * i) 2128 out.old) }
{
    copy_slot(pool, LIMITS.slot_at(i), out);
    clear_slot(pool, i, LIMITS);
    Pool { bytes: pool }.pop(list);
}

// Take from a sound pool: 18, then 19.
fn take_sound(pool: &mut [u8], source: Source, out: &mut [u8]) -> Result<(), Refusal>
    requires { Ready pool.old }
    ensures { Took (take_going pool.old (code_of_source source) out.old) (answer result) pool.new out.new }
{
    let list = SlotList::from(source);
    if byte(pool, list.counted_at()) == 0 {
        return Err(Refusal::ListEmpty);
    }
    if out.len() < SLOT {
        return Err(Refusal::OutputTooShort);
    }
    let i = byte(pool, list.starts_at()) as usize;
    give(pool, list, i, out);
    Ok(())
}

// Take behind the book's check: 11, 12, 13, then the rest.
fn take_checked(book: &[u8], pool: &mut [u8], list: u32, out: &mut [u8]) -> Result<(), Refusal>
    requires { ReadAs book.now }
    ensures { TookRest book.now pool.old list out.old (answer result) pool.new out.new }
{
    check_length(pool.len())?;
    let source = Source::try_from(list)?;
    if !pool_sound(book, pool) {
        return Err(Refusal::PoolNotSound);
    }
    take_sound(pool, source, out)
}

pub fn take(book: &[u8], pool: &mut [u8], list: u32, out: &mut [u8]) -> Result<(), Refusal>
    ensures { TakePromise book.now pool.old list out.old (answer result) pool.new out.new }
{
    check_book(book)?;
    take_checked(book, pool, list, out)
}
