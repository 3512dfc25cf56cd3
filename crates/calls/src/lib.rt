// calls: the public calls as a host in C sees them, on numbers and byte buffers. Each contract is the call's promise and nothing
// else, and no call asks anything of its inputs.
#![tactic(auto)]

ghost use Rattle.rules.specs.Calls.{OpenPromise, StepPromise, RunPromise, TakePromise};

use refusals::answer;
use running::Ran;

#[unsafe(no_mangle)]
pub extern "C" fn chase_open(book: &[u8], pool: &mut [u8], scheduler: u32, strategy: u32) -> u32
    ensures { OpenPromise book.now pool.old scheduler strategy result pool.new }
{
    answer(openings::open(book, pool, scheduler, strategy))
}

#[unsafe(no_mangle)]
pub extern "C" fn chase_step(book: &[u8], pool: &mut [u8], bound: u32, number: u32) -> u32
    ensures { StepPromise book.now pool.old bound number result pool.new }
{
    answer(running::step(book, pool, bound, number))
}

#[unsafe(no_mangle)]
pub extern "C" fn chase_run(
    book: &[u8],
    pool: &mut [u8],
    bound: u32,
    number: u32,
    budget: u32,
) -> Ran
    ensures { RunPromise book.now pool.old bound number budget result.stop result.steps pool.new }
{
    running::run(book, pool, bound, number, budget)
}

#[unsafe(no_mangle)]
pub extern "C" fn chase_take(book: &[u8], pool: &mut [u8], list: u32, out: &mut [u8]) -> u32
    ensures { TakePromise book.now pool.old list out.old result pool.new out.new }
{
    answer(takings::take(book, pool, list, out))
}
