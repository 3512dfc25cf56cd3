// numbers: one number of a book read with its refusals (2, 3, 4, 5, 7), and rows of things that a check reads one after another.
// Every reading answers with what was read and the place behind it, or with a fault: a refusal and its place.
//
// The reader over the book is `Reader`, a byte slice and an offset. Three thin functions stand on it, each proved over
// `number_at`, which is a plain function: `reader_at` makes a reader, `next` gives the number that it stands at, and `read_number` does
// one after the other. Only `read_number` calls the two. By it the check of a book reads every number: in this crate `read_ranged`,
// `read_declared` and `read_version`, and through these `check_ranges` and `check_variables`; in `terms` and `book` the kinds and the
// argument counts. The mark is read byte by byte (`read_mark`), and what the check has let through is read again, without refusals, by
// `words::num16`.
#![tactic(auto)]

ghost use Rattle.std.specs.Prelude.{◌≡◌, ◌≤◌, Err, IfOk};
ghost use Rattle.rules.specs.Reading.{many, number, ranged, declared, mark_byte, version};
ghost use Rattle.numbers.specs.Answers.{reading, checking, checked};
ghost use Rattle.numbers.specs.Rows.{Row};

use refusals::Refusal;
use words::{byte, num16, rest};

// A refusal, and the place of what is refused.
#[derive(Clone, Copy, Debug, PartialEq, Eq)]
pub struct Fault {
    pub refusal: Refusal,
    pub at: usize,
}

// A call that a fault ends refuses without the place.
impl From<Fault> for Refusal {
    ghost from_gives = { λ f r. r ≡ f.refusal };

    fn from(f: Fault) -> Refusal {
        f.refusal
    }
}

// A number and the place behind it.
pub type Value = Result<(u64, usize), Fault>;

// The place behind what was checked.
pub type Checked = Result<usize, Fault>;

// A reader over the book keeps the book and its place. It does not move: the place behind a number is in the answer.
#[derive(Clone, Copy)]
pub struct Reader<'a> {
    pub book: &'a [u8],
    pub at: usize,
}

// A reading or a check that is refused at a place.
pub fn refuse<T>(refusal: Refusal, at: usize) -> Result<T, Fault>
    ensures { result ≡ Err (record { refusal = refusal; at = at }) }
{
    Err(Fault { refusal, at })
}

// The number at a place, with the place behind it; 2 where the book ends before it.
fn number_at(book: &[u8], at: usize) -> Value
    ensures { reading result ≡ number book.now at }
{
    if rest(book, at) < 2 {
        refuse(Refusal::BookEnds, at)
    } else {
        Ok((num16(book, at), at + 2))
    }
}

// A reader that stands at a place.
pub fn reader_at<'a>(book: &'a [u8], at: usize) -> Reader<'a>
    ensures { (result.book ≡ book.entry) × (result.at ≡ at) }
{
    Reader { book, at }
}

// The number that a reader stands at.
pub fn next<'a>(r: Reader<'a>) -> Value
    ensures { reading result ≡ number r.entry.book.now r.entry.at }
{
    number_at(r.book, r.at)
}

// The number at a place, read by a reader.
pub fn read_number(book: &[u8], at: usize) -> Value
    ensures { reading result ≡ number book.now at }
{
    next(reader_at(book, at))
}

// A count or an arity, in its range.
pub fn read_ranged(book: &[u8], low: u64, high: u64, at: usize) -> Value
    ensures reads { reading result ≡ ranged low high book.now at }
    ensures within { IfOk result (λ r. r.0 ≤ high) }
{
    let (x, e) = read_number(book, at)?;
    if !(low..=high).contains(&x) {
        return refuse(Refusal::OutOfRange, at);
    }
    Ok((x, e))
}

// A symbol or a variable, of which so many are declared.
pub fn read_declared(book: &[u8], count: u64, at: usize) -> Value
    ensures { reading result ≡ declared count book.now at }
{
    let (x, e) = read_number(book, at)?;
    if x >= count {
        return refuse(Refusal::NotDeclared, at);
    }
    Ok((x, e))
}

// One letter of the mark.
pub fn read_mark(book: &[u8], letter: u64, at: usize) -> Value
    ensures { reading result ≡ mark_byte letter book.now at }
{
    if at >= book.len() {
        return refuse(Refusal::BookEnds, at);
    }
    if byte(book, at) == letter {
        Ok((letter, at + 1))
    } else {
        refuse(Refusal::WrongMark, at)
    }
}

pub fn read_version(book: &[u8], at: usize) -> Value
    ensures { reading result ≡ version book.now at }
{
    let (x, e) = read_number(book, at)?;
    if x != 1 {
        return refuse(Refusal::WrongVersion, at);
    }
    Ok((x, e))
}

// The place behind a number that was read.
fn behind(read: Value) -> Checked
    ensures { checking result ≡ checked (reading read) }
{
    Ok(read?.1)
}

// As many things as counted, each checked by `one` from the place behind the last.
pub fn check_many<F: Fn(usize) -> Checked>(count: u64, at: usize, one: F) -> Checked
    requires { F.IsAlwaysCallable one }
    ensures { Row (F.post one) count at result }
{
    let mut p = at;
    for _ in 0..count {
        p = one(p)?;
    }
    Ok(p)
}

// So many numbers of one range.
pub fn check_ranges(book: &[u8], low: u64, high: u64, count: u64, at: usize) -> Checked
    ensures { checking result ≡ checked (many count (ranged low high book.now) at) }
{
    check_many(count, at, |p| behind(read_ranged(book, low, high, p)))
}

// So many variables, of which v are declared.
pub fn check_variables(book: &[u8], v: u64, count: u64, at: usize) -> Checked
    ensures { checking result ≡ checked (many count (declared v book.now) at) }
{
    check_many(count, at, |p| behind(read_declared(book, v, p)))
}
