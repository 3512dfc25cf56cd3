// printing: what the listing program prints of an input: 8 bytes of settings (scheduler, strategy, bound, 0, then the bound's number,
// low byte first) and a book. A pool of 12 slots is opened and run with a budget of 1,000. The text of every input is defined in lines,
// specs/Printed.antt.
#![tactic(auto)]

ghost use Rattle.std.specs.Prelude.{◌≡◌, ◌+◌, ◌*◌, ◌≤◌, length};
ghost use Rattle.std.specs.Bool.{MatchBool};
ghost use Rattle.rules.specs.Sheet.{limits};
ghost use Rattle.rules.specs.Image.{pool_in};
ghost use Rattle.lines.specs.Printed.{printed};
ghost use Rattle.lines.specs.Writes.{Writes};
ghost use Rattle.printing.specs.Stops.{ran_text};
ghost use Rattle.printing.specs.Opening.{Opened, OpenedOr};

use book::LONGEST_BOOK;
use limits::{HEAD, SLOT};
use lines::Page;
use pages::{OTHER_LINES, SHEET_LINES};
use refusals::Refusal;
use words::{byte, num32};

// The bytes of the settings, and of what is read: one more than the settings and the longest book, to tell a book that is too long.
const SETTINGS: usize = 8;

pub const INPUT: usize = SETTINGS + LONGEST_BOOK + 1;

// The slots of the pool, its bytes, and the most bytes that a text takes.
const SLOTS: usize = 12;

pub const POOL: usize = HEAD + SLOT * SLOTS;

pub const TEXT: usize = SHEET_LINES * SLOTS + OTHER_LINES;

// The most steps that a run takes.
const BUDGET: u32 = 1000;

// Does a run's stop refuse the call itself, by 1 to 13, so that no step was made? Any other stop says how the run ended.
fn refuses_call(stop: u32) -> bool
    ensures { MatchBool result ((1 ≤ stop) × (stop ≤ 13)) (1 ≤ stop → 14 ≤ stop) }
{
    (1..=u32::from(Refusal::PoolNotSound)).contains(&stop)
}

// A run's answer and pool: the refusal's line alone, or the listing.
fn ran_text(pool: &[u8], stop: u32, steps: u32, page: &mut Page<'_>)
    requires { (HEAD ≤ length pool.now) × (page.old.end + SHEET_LINES * (length (pool_in limits pool.now).complete + length (pool_in limits pool.now).bounded) + OTHER_LINES ≤ length page.old.out.now) }
    ensures { Writes page.old (ran_text stop steps pool.now) page.new }
{
    if refuses_call(stop) {
        page.refusal(stop as u64);
    } else {
        pages::listing(pool, stop, steps, page);
    }
}

// The text behind an opened pool.
fn opened_text(input: &[u8], pool: &mut [u8], page: &mut Page<'_>)
    requires { Opened input.now pool.old × (length pool.old ≡ POOL) × (page.old.end + TEXT ≤ length page.old.out.now) }
    ensures { Writes page.old (printed input.now) page.new }
{
    let bound = byte(input, 2) as u32;
    let number = num32(input, 4) as u32;
    let ran = running::run(&input[SETTINGS..], pool, bound, number, BUDGET);
    ran_text(pool, ran.stop, ran.steps, page);
}

// A pool opened by an input: its settings and its book, then the fourth byte, which is 0.
fn open_input(input: &[u8], pool: &mut [u8]) -> Result<(), Refusal>
    requires { length pool.old ≡ POOL }
    ensures { OpenedOr input.now result pool.new }
{
    if input.len() < SETTINGS {
        return Err(Refusal::BookEnds);
    }
    let scheduler = byte(input, 0) as u32;
    let strategy = byte(input, 1) as u32;
    openings::open(&input[SETTINGS..], pool, scheduler, strategy)?;
    if byte(input, 3) != 0 {
        return Err(Refusal::UnknownSetting);
    }
    Ok(())
}

// The text of an input.
pub fn text(input: &[u8], pool: &mut [u8], page: &mut Page<'_>)
    requires { (length pool.old ≡ POOL) × (page.old.end + TEXT ≤ length page.old.out.now) }
    ensures { Writes page.old (printed input.now) page.new }
{
    match open_input(input, pool) {
        Ok(()) => opened_text(input, pool, page),
        Err(refusal) => page.refusal(u64::from(u32::from(refusal))),
    }
}
