// records: what the programs on recorded data share. They read records off standard input, each behind a head of numbers, low byte
// first, and print a line or more for each; where a record stops a program, the last line says why, and after how many records.
#![tactic(auto)]

ghost use Rattle.std.specs.Prelude.{◌<◌, IfSome};

use numbers::Fault;

// The descriptors of standard input and output.
pub const STDIN: i32 = 0;

pub const STDOUT: i32 = 1;

// The most records that a program takes.
const MOST: u64 = 1000000;

// Why a program takes no more records: there is none, one ends early or does not fit, or one is of no kind that is known.
#[derive(Clone, Copy, Drop)]
pub enum Stop {
    End,
    Unfit,
    Unknown,
}

// The head of the next record, if there is one.
pub fn read_head(head: &mut [u8]) -> Result<(), Stop> {
    match io::read_full(STDIN, head) {
        0 => Err(Stop::End),
        got if got < head.len() => Err(Stop::Unfit),
        _ => Ok(()),
    }
}

// So many bytes of a record as there is room for.
pub fn read(room: &mut [u8]) -> Result<(), Stop> {
    if io::read_full(STDIN, room) < room.len() {
        return Err(Stop::Unfit);
    }
    Ok(())
}

// The length at a place of a head.
pub fn size(head: &[u8], at: usize) -> usize
    ensures { result < 4294967296 }
{
    words::num32(head, at) as usize
}

pub fn word(w: &[u8]) {
    io::write_all(STDOUT, w);
}

// A word, and a number in decimal.
pub fn say(w: &[u8], x: u64) {
    word(w);
    io::print_decimal(STDOUT, x);
}

// A space, and a number in eight hex digits.
pub fn say_hex(x: u64) {
    word(b" ");
    io::print_hex(STDOUT, x, 8);
}

// The number of a refusal, and the place of what is refused.
pub fn say_fault(f: Fault) {
    say(b"refused ", u64::from(u32::from(f.refusal)));
    say(b" at ", f.at as u64);
}

fn last_line(stop: Stop, kind: &[u8], done: u64) {
    match stop {
        Stop::End => word(b"end"),
        Stop::Unfit => {
            word(b"unfit ");
            word(kind);
        }
        Stop::Unknown => word(b"unknown call"),
    }
    say(b" after ", done);
    word(b"\n");
}

// Takes records until one stops the program: why, and after how many.
pub fn until_stopped<F: FnMut() -> Result<(), Stop>>(mut next: F) -> Option<(Stop, u64)>
    requires { F.IsAlwaysCallable next }
    ensures { IfSome result (λ r. r.1 < 1000000) }
{
    for done in 0..MOST {
        if let Err(stop) = next() {
            return Some((stop, done));
        }
    }
    None
}

// The same, with a last line.
pub fn each<F: FnMut() -> Result<(), Stop>>(kind: &[u8], next: F)
    requires { F.IsAlwaysCallable next }
{
    if let Some((stop, done)) = until_stopped(next) {
        last_line(stop, kind, done);
    }
}
