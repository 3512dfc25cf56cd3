// listing: the listing program. Standard input holds 8 bytes of settings and a book, and the listing goes to standard output; what is
// printed, of every input, is what crate printing says.
#![tactic(auto)]

use lines::Page;
use printing::{INPUT, POOL, TEXT, text};
use records::{STDIN, STDOUT};

fn main() {
    let mut input = [0; INPUT];
    let mut pool = [0; POOL];
    let mut out = [0; TEXT];
    let mut page = Page::new(&mut out, 0);
    let n = io::read_full(STDIN, &mut input);
    text(&input[..n], &mut pool, &mut page);
    io::write_all(STDOUT, page.text());
}
