// checkbooks: checks many books. Standard input holds, for each, its length in four bytes, low byte first, and its bytes;
// for each a line says where it ends, or its refusal and the place of the fault.
#![tactic(auto)]

use records::{Stop, read, read_head, say, say_fault, size, until_stopped, word};

fn report(bytes: &[u8]) {
    match book::check_book(bytes) {
        Ok(e) => say(b"ends at ", e as u64),
        Err(f) => say_fault(f),
    }
    word(b"\n");
}

// The next book and its line.
fn next(room: &mut [u8]) -> Result<(), Stop> {
    let mut head = [0; 4];
    read_head(&mut head)?;
    let book = room.get_mut(..size(&head, 0)).ok_or(Stop::Unfit)?;
    read(book)?;
    report(book);
    Ok(())
}

// No last line says why it ends.
fn main() {
    let mut room = [0; 40000];
    until_stopped(|| next(&mut room));
}
