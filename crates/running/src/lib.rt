// running: the calls step and run. Each checks 1 to 13 once: the book, the pool's length, the bound, the pool's soundness. A run then
// steps until its budget is spent or a step refuses; what a step leaves is sound again, so nothing is checked twice.
#![tactic(auto)]

ghost use Rattle.std.specs.Prelude.{◌≡◌};
ghost use Rattle.rules.specs.Calls.{StepPromise, RunPromise};
ghost use Rattle.refusals.specs.Numbers.{answer};
ghost use Rattle.bound.specs.Bounds.{bound_is};
ghost use Rattle.texts.specs.Heads.{ReadAs};
ghost use Rattle.stepping.specs.Standing.{Standing};
ghost use Rattle.running.specs.Verdict.{CallChecked};
ghost use Rattle.running.specs.Runs.{RanFrom};

use book::check_book;
use bound::Bound;
use openings::check_length;
use poolcheck::pool_sound;
use refusals::Refusal;
use stepping::{Memory, step_in};

// 11, 12 and 13, behind the book's check; or the bound that the call means.
fn check_pool(book: &[u8], pool: &[u8], bound: u32, number: u32) -> Result<Bound, Refusal>
    requires { ReadAs book.now }
    ensures { CallChecked book.now pool.now bound number result }
{
    check_length(pool.len())?;
    let known = Bound::try_from((bound, number))?;
    if pool_sound(book, pool) {
        Ok(known)
    } else {
        Err(Refusal::PoolNotSound)
    }
}

// 1 to 13, or the bound that the call means.
fn check_call(book: &[u8], pool: &[u8], bound: u32, number: u32) -> Result<Bound, Refusal>
    ensures { CallChecked book.now pool.now bound number result }
{
    check_book(book)?;
    check_pool(book, pool, bound, number)
}

pub fn step(book: &[u8], pool: &mut [u8], bound: u32, number: u32) -> Result<(), Refusal>
    ensures { StepPromise book.now pool.old bound number (answer result) pool.new }
{
    let known = check_call(book, pool, bound, number)?;
    let mut memory = Memory::new();
    let (base, mut m) = memory.lend();
    step_in(book, pool, known, base, &mut m)
}

// The stop of a run, and the number of steps made.
#[repr(C)]
#[derive(Clone, Copy)]
pub struct Ran {
    pub stop: u32,
    pub steps: u32,
}

// Steps on a pool that is sound for the book, all in one working memory, until the budget is spent or a step refuses.
fn run_in(book: &[u8], pool: &mut [u8], bound: Bound, budget: u32) -> Ran
    requires { Standing book.now pool.old }
    ensures { RanFrom book.now (bound_is bound) budget pool.old result.stop result.steps pool.new }
{
    let mut memory = Memory::new();
    let (base, mut m) = memory.lend();
    for k in 0..budget {
        if let Err(refusal) = step_in(book, pool, bound, base, &mut m) {
            return Ran {
                stop: u32::from(refusal),
                steps: k,
            };
        }
    }
    Ran {
        stop: 0,
        steps: budget,
    }
}

pub fn run(book: &[u8], pool: &mut [u8], bound: u32, number: u32, budget: u32) -> Ran
    ensures { RunPromise book.now pool.old bound number budget result.stop result.steps pool.new }
{
    match check_call(book, pool, bound, number) {
        Ok(known) => run_in(book, pool, known, budget),
        Err(refusal) => Ran {
            stop: u32::from(refusal),
            steps: 0,
        },
    }
}
