// replaycalls: makes recorded calls on byte buffers, and prints for each its answer and the sum of every buffer that was lent to it, as
// the buffer stands after the call. Standard input holds the records one after another; numbers are low byte first:
//
//    0  the call: 1 open, 2 step, 3 run, 4 take
//    1  1: the book's bytes follow; 0: they are as the record before left them
//    2  1: the pool is filled anew; 0: its bytes are as the record before left them
//    3  the byte that the pool is filled with
//    4  the length of the book, 4 bytes
//    8  the length of the pool, 4 bytes
//   12  the length of the output, 4 bytes; it is filled with nines
//   16  how many stretches of the pool follow, 4 bytes
//   20  the call's numbers, in the order of its arguments, 4 bytes each
//   32  the book, if it follows; then each stretch: its place and its length, 4 bytes each, and its bytes
//
// The line of a record is the call's name, its answer (of a run its stop and its steps) and the sums, in hex digits: of the book, of
// the pool, of a take's output. The last line says how many records were replayed. A record that has no arm, ends early or does not
// fit ends the replay with a line that says so.
#![tactic(auto)]

ghost use Rattle.std.specs.Prelude.{◌<◌};

use records::{Stop, read, read_head, say, say_hex, size, word};
use refusals::answer;
use words::num32;

// The number of a call at a place.
fn given(head: &[u8], at: usize) -> u32 {
    num32(head, at) as u32
}

// The sum of bytes: a polynomial in them, modulo the greatest prime below 2 to the 32.
fn sum(s: &[u8]) -> u64
    ensures { result < 4294967291 }
{
    let mut h: u64 = 0;
    for b in s {
        h = (h * 2654435761 + *b as u64 + 1) % 4294967291;
    }
    h
}

// The next stretch of the input, put into the pool.
fn stretch(pool: &mut [u8]) -> Result<(), Stop> {
    let mut head = [0; 8];
    read(&mut head)?;
    let a = size(&head, 0);
    let e = a + size(&head, 4);
    read(pool.get_mut(a..e).ok_or(Stop::Unfit)?)
}

// The book of a record.
fn read_book(head: &[u8; 32], book: &mut [u8]) -> Result<(), Stop> {
    match head[1] {
        0 => Ok(()),
        1 => read(book),
        _ => Err(Stop::Unfit),
    }
}

// The pool of a record.
fn read_pool(head: &[u8; 32], pool: &mut [u8]) -> Result<(), Stop> {
    match head[2] {
        0 => {}
        1 => pool.fill(head[3]),
        _ => return Err(Stop::Unfit),
    }
    for _ in 0..num32(head, 16) {
        stretch(pool)?;
    }
    Ok(())
}

// The sum of a buffer that was lent, as it stands after the call.
fn lent(s: &[u8]) {
    say_hex(sum(s));
}

fn open(head: &[u8], book: &[u8], pool: &mut [u8]) {
    let n = answer(openings::open(book, pool, given(head, 20), given(head, 24)));
    say(b"open ", n as u64);
}

fn step(head: &[u8], book: &[u8], pool: &mut [u8]) {
    let n = answer(running::step(book, pool, given(head, 20), given(head, 24)));
    say(b"step ", n as u64);
}

fn run(head: &[u8], book: &[u8], pool: &mut [u8]) {
    let ran = running::run(
        book,
        pool,
        given(head, 20),
        given(head, 24),
        given(head, 28),
    );
    say(b"run ", ran.stop as u64);
    say(b" ", ran.steps as u64);
}

fn take(head: &[u8], book: &[u8], pool: &mut [u8], out: &mut [u8]) {
    let n = answer(takings::take(book, pool, given(head, 20), out));
    say(b"take ", n as u64);
}

// The call of a record, an arm for each, and its line.
fn call(head: &[u8; 32], book: &[u8], pool: &mut [u8], out: &mut [u8]) -> Result<(), Stop> {
    match head[0] {
        1 => open(head, book, pool),
        2 => step(head, book, pool),
        3 => run(head, book, pool),
        4 => take(head, book, pool, out),
        _ => return Err(Stop::Unknown),
    }
    lent(book);
    lent(pool);
    // A take has its output summed too.
    if head[0] == 4 {
        lent(out);
    }
    word(b"\n");
    Ok(())
}

// The next record of the input.
fn next(book: &mut [u8], pool: &mut [u8], out: &mut [u8]) -> Result<(), Stop> {
    let mut head = [0; 32];
    read_head(&mut head)?;
    let book = book.get_mut(..size(&head, 4)).ok_or(Stop::Unfit)?;
    let pool = pool.get_mut(..size(&head, 8)).ok_or(Stop::Unfit)?;
    let out = out.get_mut(..size(&head, 12)).ok_or(Stop::Unfit)?;
    read_book(&head, book)?;
    read_pool(&head, pool)?;
    out.fill(9);
    call(&head, book, pool, out)
}

fn main() {
    let mut book = [0; 40000];
    let mut pool = [0; 140000];
    let mut out = [0; 4096];
    records::each(b"record", || next(&mut book, &mut pool, &mut out));
}
