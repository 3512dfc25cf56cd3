// replaylistings: lists recorded inputs of the listing program. Standard input holds, for each, its length in four bytes, low byte
// first, and its bytes: settings and a book. For each the program prints what crate printing says, and a line `--` behind it. The last
// line says how many were listed; an input that ends early or does not fit ends the program with a line that says so.
#![tactic(auto)]

use lines::Page;
use printing::{INPUT, POOL, TEXT, text};
use records::Stop;

// The text of an input, and the line behind it.
fn list(input: &[u8], pool: &mut [u8; POOL], out: &mut [u8; TEXT]) {
    let mut page = Page::new(out, 0);
    text(input, pool, &mut page);
    records::word(page.text());
    records::word(b"--\n");
}

// The next input.
fn next(input: &mut [u8; INPUT], pool: &mut [u8; POOL], out: &mut [u8; TEXT]) -> Result<(), Stop> {
    let mut head = [0; 4];
    records::read_head(&mut head)?;
    let input = input.get_mut(..records::size(&head, 0)).ok_or(Stop::Unfit)?;
    records::read(input)?;
    list(input, pool, out);
    Ok(())
}

fn main() {
    let mut input = [0; INPUT];
    let mut pool = [0; POOL];
    let mut out = [0; TEXT];
    records::each(b"input", || next(&mut input, &mut pool, &mut out));
}
