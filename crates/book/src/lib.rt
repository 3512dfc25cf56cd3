// book: the check of a rule book, refusals 1 to 10, equal to the reading of the definitions on every input.
// Each function follows one definition of rules (Reading); numbers are read by `numbers`, terms by `terms`.
#![tactic(auto)]

ghost use Rattle.std.specs.Prelude.{◌≡◌, ◌≤◌};
ghost use Rattle.rules.specs.Reading.{many, mark, names_at, literal_at, origin_at, disjunct_at, sequent_at, read_book};
ghost use Rattle.texts.specs.Names.{names_in};
ghost use Rattle.texts.specs.Heads.{front_at};
ghost use Rattle.numbers.specs.Answers.{checked, checking, reading};

use counts::{
    WitnessKind, arity_of, function_witnesses, functions, relation_arity, relations, witnesses_of,
};
use numbers::{
    Checked, Value, check_many, check_ranges, check_variables, read_declared, read_mark,
    read_number, read_ranged, read_version, refuse,
};
use refusals::Refusal;
use terms::check_terms;

// The most bytes of a book.
pub const LONGEST_BOOK: usize = 32768;

fn check_literal(book: &[u8], v: u64, at: usize) -> Checked
    ensures { checking result ≡ checked (literal_at (names_in book.now) v book.now at) }
{
    let (kind, e) = read_number(book, at)?;
    match kind {
        0 => {
            let (r, g) = read_declared(book, relations(book), e)?;
            check_terms(book, v, relation_arity(book, r), g)
        }
        1 => check_terms(book, v, 2, e),
        _ => refuse(Refusal::UnknownKind, at),
    }
}

fn check_literals(book: &[u8], v: u64, count: u64, at: usize) -> Checked
    ensures { checking result ≡ checked (many count (literal_at (names_in book.now) v book.now) at) }
{
    check_many(count, at, |p| check_literal(book, v, p))
}

// An origin: its witness, and as many arguments as the witness has.
fn check_origin(book: &[u8], v: u64, at: usize) -> Checked
    ensures { checking result ≡ checked (origin_at (names_in book.now) v book.now at) }
{
    let (number, a) = read_number(book, at)?;
    let Ok(kind) = WitnessKind::try_from(number) else {
        return refuse(Refusal::UnknownKind, at);
    };
    let (w, b) = read_declared(book, witnesses_of(book, kind), a)?;
    let (k, c) = read_number(book, b)?;
    if k != arity_of(book, kind, w) {
        return refuse(Refusal::WrongCount, b);
    }
    check_variables(book, v, k, c)
}

fn check_origins(book: &[u8], v: u64, count: u64, at: usize) -> Checked
    ensures { checking result ≡ checked (many count (origin_at (names_in book.now) v book.now) at) }
{
    check_many(count, at, |p| check_origin(book, v, p))
}

fn check_disjunct(book: &[u8], v: u64, at: usize) -> Checked
    requires { v ≤ 4 }
    ensures { checking result ≡ checked (disjunct_at (names_in book.now) v book.now at) }
{
    let (k, a) = read_ranged(book, 0, 4, at)?;
    let b = check_origins(book, v, k, a)?;
    let (l, c) = read_ranged(book, 0, 16, b)?;
    check_literals(book, v + k, l, c)
}

fn check_disjuncts(book: &[u8], v: u64, count: u64, at: usize) -> Checked
    requires { v ≤ 4 }
    ensures { checking result ≡ checked (many count (disjunct_at (names_in book.now) v book.now) at) }
{
    check_many(count, at, |p| check_disjunct(book, v, p))
}

// A sequent, its head from the body's count on.
fn check_sequent(book: &[u8], at: usize) -> Checked
    ensures { checking result ≡ checked (sequent_at (names_in book.now) book.now at) }
{
    let (v, a) = read_ranged(book, 0, 4, at)?;
    let (k, b) = read_ranged(book, 0, 16, a)?;
    let c = check_literals(book, v, k, b)?;
    let (d, e) = read_ranged(book, 0, 8, c)?;
    check_disjuncts(book, v, d, e)
}

fn check_sequents(book: &[u8], count: u64, at: usize) -> Checked
    ensures { checking result ≡ checked (many count (sequent_at (names_in book.now) book.now) at) }
{
    check_many(count, at, |p| check_sequent(book, p))
}

// The mark `RUL`.
fn check_mark(book: &[u8]) -> Value
    ensures { reading result ≡ mark book.now }
{
    let (_, a) = read_mark(book, b'R' as u64, 0)?;
    let (_, b) = read_mark(book, b'U' as u64, a)?;
    read_mark(book, b'L' as u64, b)
}

// Counts and arities.
fn check_names(book: &[u8]) -> Checked
    ensures { checking result ≡ checked (names_at book.now 5) }
{
    let e = check_ranges(book, 0, 64, 5, 5)?;
    let g = check_ranges(book, 0, 4, functions(book), e)?;
    let h = check_ranges(book, 0, 4, relations(book), g)?;
    check_ranges(book, 1, 4, function_witnesses(book), h)
}

// All that stands before the sequent count.
fn check_front(book: &[u8]) -> Checked
    ensures { checking result ≡ checked (front_at book.now) }
{
    let (_, a) = check_mark(book)?;
    read_version(book, a)?;
    check_names(book)
}

// The check of a book: the place of its end, or the first refusal and its place.
pub fn check_book(book: &[u8]) -> Checked
    ensures { checking result ≡ checked (read_book book.now) }
{
    if book.len() > LONGEST_BOOK {
        return refuse(Refusal::BookTooLong, 0);
    }
    let c = check_front(book)?;
    let (k, d) = read_ranged(book, 0, 128, c)?;
    let e = check_sequents(book, k, d)?;
    if e != book.len() {
        return refuse(Refusal::BytesLeftOver, e);
    }
    Ok(e)
}
