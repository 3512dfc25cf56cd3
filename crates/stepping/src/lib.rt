// stepping: one step on a sound pool. The first waiting sheet is loaded and evaluated. Where nothing fires it is complete; where a
// sequent without a head fires it is given up; else its children are made: once to ask whether one grows too large, then, if there are
// slots and model numbers for them, once more to be stored. All refusals come before the first byte is written.
#![tactic(auto)]

ghost use Rattle.std.specs.Prelude.{◌≡◌, ◌+◌, ◌-◌, ◌*◌, ◌/◌, ◌≤◌, ◌<◌, length, get_or};
ghost use Rattle.bound.specs.Bounds.{bound_is};
ghost use Rattle.refusals.specs.Numbers.{answer};
ghost use Rattle.limits.specs.Limits.{form_size};
ghost use Rattle.rules.specs.Pool.{strategy_of};
ghost use Rattle.settings.specs.Codes.{strategy_is};
ghost use Rattle.settings.specs.Numbers.{number_of};
ghost use Rattle.stepping.specs.Standing.{L, Standing, Stepped};
ghost use Rattle.stepping.specs.Heads.{HeadAt, NextPlace, RoomFor};
ghost use Rattle.stepping.specs.Branch.{HasFired, Branched};
ghost use Rattle.children.specs.Lent.{HasRoom, SameLent};
ghost use Rattle.evalforms.specs.Basis.{Basis, Evaluated};

use adopting::free_base;
use bound::Bound;
use children::{Branching, Scratch, all_fit};
use counts::sequent_count;
use evalforms::evaluate_form;
use evaluate::Fired;
use heads::Pool;
use limits::{FORM, HEAD, LIMITS, SLOT};
use lists::finish;
use nodes::Text;
use offspring::place_children;
use poolparts::{counted, next_number};
use refusals::Refusal;
use settings::{SlotList, Strategy};
use skips::skip_literals;
use slots::get_sheet;
use words::{byte, num16};

// Room for the elements that live, which are no more than a sheet has keys.
const KEYS: usize = LIMITS.keys;

// Chosen elements, four at most, and the witnesses of a disjunct, four at most.
const ENV: usize = 8;

// Where a pool's head says its strategy.
const STRATEGY_AT: usize = 6;

// Working memory for whoever has none to lend: the form of the base, and what is written over for each child.
#[derive(Drop)]
pub struct Memory {
    base: [u64; FORM],
    form: [u64; FORM],
    env: [u64; ENV],
    domain: [u64; KEYS],
}

impl Memory {
    pub fn new() -> Self {
        Memory {
            base: [0; FORM],
            form: [0; FORM],
            env: [0; ENV],
            domain: [0; KEYS],
        }
    }

    // Both, lent to a step or to several.
    pub fn lend(&mut self) -> (&mut [u64], Scratch<'_>)
        ensures base { length result.0.now ≡ form_size L }
        ensures scratch { (8 ≤ length result.1.env.now) × HasRoom KEYS result.0.now result.1 }
    {
        let Memory {
            base,
            form,
            env,
            domain,
        } = self;
        (base, Scratch { form, env, domain })
    }
}

// Where the head of the sequent at a place stands: the number of its disjuncts.
fn head_at(book: &[u8], a: usize) -> usize
    requires { a ≤ length book.now }
    ensures { (result ≤ length book.now) × HeadAt book.now a result }
{
    if book.len() - a < 4 {
        return a;
    }
    skip_literals(&Text { book, bytes: book }, a + 4, num16(book, a + 2))
}

// The place that the children get when sequent i of n fired: under Linear the first, else the next one, wrapping.
fn next_place(strategy: Strategy, i: u64, n: u64) -> u64
    ensures { NextPlace (strategy_is strategy) i n result }
{
    if i >= n {
        return 0;
    }
    match strategy {
        Strategy::Linear => 0,
        Strategy::Fair if i + 1 == n => 0,
        Strategy::Fair => i + 1,
    }
}

// The strategy that a pool's head says.
fn strategy_in(pool: &[u8]) -> Strategy
    ensures { strategy_is result ≡ strategy_of (get_or pool.now 6 0) }
{
    Strategy::of_byte(byte(pool, STRATEGY_AT))
}

// The first slot that waits, where one does.
fn first_waiting(pool: &[u8]) -> usize
    ensures { result ≡ get_or pool.now 16 0 }
{
    byte(pool, SlotList::Waiting.starts_at()) as usize
}

// How many slots a pool has.
fn slots_of(pool: &[u8]) -> usize
    requires { 208 ≤ length pool.now }
    ensures { result ≡ (length pool.now - 208) / 2128 }
{
    (pool.len() - HEAD) / SLOT
}

// Are there slots and model numbers for n children?
fn room_for(pool: &[u8], n: u64) -> Result<(), Refusal>
    requires { (208 ≤ length pool.now) × (n < 65536) }
    ensures { RoomFor pool.now n (answer result) }
{
    let slots = slots_of(pool) as u64;
    let used = counted(pool, SlotList::Waiting)
        + counted(pool, SlotList::Complete)
        + counted(pool, SlotList::Bounded);
    let used = used as u64;
    if slots + 1 < used + n {
        return Err(Refusal::NoFreeSlots);
    }
    if next_number(pool) + n > 65536 {
        return Err(Refusal::NoModelNumbers);
    }
    Ok(())
}

// A sequent fired on the base, the first sheet that waits, at the elements that stand first in the environment. Where it has children, and
// there is room for them, the base's slot is freed and they are stored.
fn branch(
    book: &[u8],
    pool: &mut [u8],
    fired: Fired,
    bound: Bound,
    base: &[u64],
    m: &mut Scratch<'_>,
) -> Result<(), Refusal>
    requires { HasFired book.now pool.old (get_or pool.old 16 0) fired.number fired.at base.now m.old.env.now × (8 ≤ length m.old.env.now) × HasRoom KEYS base.now m.old }
    ensures lent { SameLent m.old m.new }
    ensures branched { Branched book.now pool.old (get_or pool.old 16 0) fired.number fired.at (bound_is bound) base.now m.old.env.now (answer result) pool.new }
{
    let i = first_waiting(pool);
    let at = head_at(book, fired.at);
    let n = num16(book, at);
    if n == 0 {
        free_base(pool, i, LIMITS);
        return Ok(());
    }
    let chosen = num16(book, fired.at) as usize;
    let p = Branching {
        book,
        chosen,
        bound,
        base,
        limits: LIMITS,
    };
    all_fit(&p, at + 2, n, m)?;
    room_for(pool, n)?;
    let place = next_place(strategy_in(pool), fired.number, sequent_count(book));
    let slots = slots_of(pool);
    free_base(pool, i, LIMITS);
    place_children(&p, at + 2, n, place, m, pool, slots);
    Ok(())
}

// What fires on the base, whose choice is left in the environment.
fn fired_on(book: &[u8], strategy: Strategy, base: &[u64], m: &mut Scratch<'_>) -> Option<Fired>
    requires { Basis book.now L base.now × (8 ≤ length m.old.env.now) × (KEYS ≤ length m.old.domain.now) }
    ensures lent { SameLent m.old m.new }
    ensures evaluated { Evaluated book.now (strategy_is strategy) L base.now result m.new.env.now }
{
    evaluate_form(book, strategy, base, LIMITS, m.env, m.domain)
}

// One step on a pool that is sound for the book, in lent working memory: the base's form, and what is written over for each child.
pub fn step_in(
    book: &[u8],
    pool: &mut [u8],
    bound: Bound,
    base: &mut [u64],
    m: &mut Scratch<'_>,
) -> Result<(), Refusal>
    requires { Standing book.now pool.old × (length base.old ≡ form_size L) × (8 ≤ length m.old.env.now) × HasRoom KEYS base.old m.old }
    ensures lent { SameLent m.old m.new }
    ensures stepped { Stepped book.now (bound_is bound) pool.old (answer result) pool.new }
{
    if counted(pool, SlotList::Waiting) == 0 {
        return Err(Refusal::NothingWaiting);
    }
    get_sheet(pool, first_waiting(pool), base, LIMITS);
    match fired_on(book, strategy_in(pool), base, m) {
        None => {
            finish(&mut Pool { bytes: pool });
            Ok(())
        }
        Some(fired) => branch(book, pool, fired, bound, base, m),
    }
}
