// evaluates: what fires on recorded sheets. Standard input holds the records one after another; numbers are low byte first:
//
//    0  the strategy: 0 Linear, 1 Fair
//    1  three zeros
//    4  the length of the book, 4 bytes
//    8  how many bytes of the sheet's head, keys, facts and depths follow, 2 bytes each; the bytes of the slot behind them are zero
//   16  the book; then those bytes of head, keys, facts and depths
//
// The line of a record says what fires on the lone sheet: the number of the sequent and the choice of elements; or that nothing does;
// or why the record was refused. The last line says how many records there were. A record that ends early or does not fit ends the
// program with a line that says so.
#![tactic(auto)]

ghost use Rattle.settings.specs.Codes.{strategy_is};
ghost use Rattle.texts.specs.Heads.{ReadAs};
ghost use Rattle.evaluates.specs.Lone.{Lone, FiresOn};

use book::{LONGEST_BOOK, check_book};
use evalforms::evaluate_form;
use evaluate::Fired;
use limits::{FORM, LIMITS, SLOT, SLOT_KEYS};
use records::{Stop, read, read_head, say, say_fault, size, word};
use settings::Strategy;
use sheetcheck::lone_sound;
use sheets::load_sheet;
use words::num16;

// One byte more than the longest book tells one that is too long.
const ROOM: usize = LONGEST_BOOK + 1;

// What fires on a sheet that passed the checks; the choice is left in the environment.
fn fires(book: &[u8], strategy: Strategy, slot: &[u8; SLOT], env: &mut [u64; 8]) -> Option<Fired>
    requires { Lone book.now slot.now }
    ensures { FiresOn book.now (strategy_is strategy) slot.now result env.new }
{
    let mut base = [0u64; FORM];
    let mut dom = [0u64; LIMITS.keys];
    load_sheet(slot, &mut base, LIMITS);
    evaluate_form(book, strategy, &base, LIMITS, env, &mut dom)
}

// The first n of the elements that were chosen.
fn say_choice(env: &[u64], n: usize) {
    for e in env.iter().take(n) {
        say(b" ", *e);
    }
}

// The line of a sheet that passed the checks.
fn evaluate_sheet(book: &[u8], strategy: Strategy, slot: &[u8; SLOT])
    requires { Lone book.now slot.now }
{
    let mut env = [0u64; 8];
    match fires(book, strategy, slot, &mut env) {
        None => word(b"nothing fires\n"),
        Some(fired) => {
            say(b"fires ", fired.number);
            word(b" at");
            say_choice(&env, num16(book, fired.at) as usize);
            word(b"\n");
        }
    }
}

// The line of a sheet of a book that is read.
fn check_sheet(book: &[u8], strategy: Strategy, slot: &[u8; SLOT])
    requires { ReadAs book.now }
{
    if lone_sound(book, slot, LIMITS) {
        evaluate_sheet(book, strategy, slot);
    } else {
        word(b"sheet not sound\n");
    }
}

// The line of a record.
fn report(book: &[u8], strategy: u32, slot: &[u8; SLOT]) {
    let Ok(strategy) = Strategy::try_from(strategy) else {
        word(b"strategy not known\n");
        return;
    };
    match check_book(book) {
        Err(f) => {
            word(b"book ");
            say_fault(f);
            word(b"\n");
        }
        Ok(_) => check_sheet(book, strategy, slot),
    }
}

// The next n bytes of the input, put into a part of the slot; zeros behind them.
fn read_part(part: &mut [u8], n: u64) -> Result<(), Stop> {
    part.fill(0);
    read(part.get_mut(..n as usize).ok_or(Stop::Unfit)?)
}

// The sheet of a record, part by part.
fn read_sheet(head: &[u8], slot: &mut [u8; SLOT]) -> Result<(), Stop> {
    let facts = LIMITS.slot_facts_at();
    let depths = LIMITS.slot_depths_at();
    read_part(&mut slot[..SLOT_KEYS], num16(head, 8))?;
    read_part(&mut slot[SLOT_KEYS..facts], num16(head, 10))?;
    read_part(&mut slot[facts..depths], num16(head, 12))?;
    read_part(&mut slot[depths..], num16(head, 14))
}

// The next record of the input, and its line.
fn next(room: &mut [u8], slot: &mut [u8; SLOT]) -> Result<(), Stop> {
    let mut head = [0; 16];
    read_head(&mut head)?;
    let book = room.get_mut(..size(&head, 4)).ok_or(Stop::Unfit)?;
    read(book)?;
    read_sheet(&head, slot)?;
    report(book, u32::from(head[0]), slot);
    Ok(())
}

fn main() {
    let mut room = [0; ROOM];
    let mut slot = [0; SLOT];
    records::each(b"record", || next(&mut room, &mut slot));
}
