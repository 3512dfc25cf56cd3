// openings: the call open. The book's check gives 1 to 10, then come the pool's length and the settings; open replaces the whole pool
// with one waiting, empty model 0.
#![tactic(auto)]

ghost use Rattle.std.specs.Prelude.{◌≡◌, ◌≤◌, length, T};
ghost use Rattle.rules.specs.Sheet.{limits};
ghost use Rattle.rules.specs.Pool.{opened};
ghost use Rattle.rules.specs.Image.{pool_bytes, slots_in};
ghost use Rattle.rules.specs.Calls.{right_length, OpenPromise};
ghost use Rattle.refusals.specs.Numbers.{answer};
ghost use Rattle.settings.specs.Codes.{code_of_scheduler, code_of_strategy};
ghost use Rattle.openings.specs.Order.{LengthChecked};
ghost use Rattle.openings.specs.Open.{OpenRest};

use book::check_book;
use heads::clear;
use limits::{HEAD, SLOT};
use refusals::Refusal;
use settings::{Scheduler, Strategy};

// 11: the length of a head and 1 to 64 slots.
pub fn right_length(len: usize) -> bool
    ensures { result ≡ right_length len }
{
    let n = len.saturating_sub(HEAD) / SLOT;
    len == HEAD + SLOT * n && (1..=64).contains(&n)
}

// A length that is right, or 11.
pub fn check_length(len: usize) -> Result<(), Refusal>
    ensures { LengthChecked len result }
{
    if right_length(len) {
        Ok(())
    } else {
        Err(Refusal::WrongPoolLength)
    }
}

// One waiting, empty model 0.
fn write_open(pool: &mut [u8], scheduler: Scheduler, strategy: Strategy)
    requires { (208 ≤ length pool.old) × T (right_length (length pool.old)) }
    ensures { pool.new ≡ pool_bytes limits (opened (code_of_scheduler scheduler) (code_of_strategy strategy) (slots_in limits (length pool.old))) }
{
    clear(pool);
    pool[0] = 77;
    pool[1] = 68;
    pool[2] = 76;
    pool[3] = 1;
    pool[5] = u8::from(scheduler);
    pool[6] = u8::from(strategy);
    pool[8] = 1;
    pool[12] = 1;
}

// Open behind the book's check: 11, then 12.
fn open_checked(pool: &mut [u8], scheduler: u32, strategy: u32) -> Result<(), Refusal>
    ensures { OpenRest pool.old scheduler strategy (answer result) pool.new }
{
    check_length(pool.len())?;
    let scheduler = Scheduler::try_from(scheduler)?;
    let strategy = Strategy::try_from(strategy)?;
    write_open(pool, scheduler, strategy);
    Ok(())
}

pub fn open(book: &[u8], pool: &mut [u8], scheduler: u32, strategy: u32) -> Result<(), Refusal>
    ensures { OpenPromise book.now pool.old scheduler strategy (answer result) pool.new }
{
    check_book(book)?;
    open_checked(pool, scheduler, strategy)
}
