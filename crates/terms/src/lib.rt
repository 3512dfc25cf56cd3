// terms: the check of a term. It calls itself for each argument, with the levels that are left as the falling number;
// what does not recurse is in `term_head`, which answers what stands first: how many arguments a term has, and where they start.
#![tactic(auto)]

ghost use Rattle.std.specs.Prelude.{◌≡◌, ◌-◌, ◌<◌, suc};
ghost use Rattle.rules.specs.Reading.{declared, giving, many, term_at, levels};
ghost use Rattle.texts.specs.Names.{names_in};
ghost use Rattle.numbers.specs.Answers.{checked, checking, reading};
ghost use Rattle.terms.specs.Head.{application_at, args_at, headed};

use counts::{constants, function_arity, functions};
use numbers::{Checked, Value, check_many, read_declared, read_number, refuse};
use refusals::Refusal;

// A leaf, which is a declared number: it has no arguments.
fn leaf(book: &[u8], count: u64, at: usize) -> Value
    ensures { reading result ≡ giving (λ _. 0) (declared count book.now at) }
{
    let (_, e) = read_declared(book, count, at)?;
    Ok((0, e))
}

// The function of an application, with so many levels below it: how many arguments it has, and where they start.
fn application(book: &[u8], deeper: u64, v: u64, at: usize) -> Value
    ensures { checked (application_at deeper (names_in book.now) v book.now at) ≡ headed result (args_at deeper (names_in book.now) v book.now) }
{
    let (f, e) = read_declared(book, functions(book), at)?;
    let arity = function_arity(book, f);
    if deeper == 0 && arity > 0 {
        return refuse(Refusal::TooDeep, at);
    }
    Ok((arity, e))
}

// What stands first in a term, with so many levels below it: how many arguments it has, and where they start.
fn term_head(book: &[u8], deeper: u64, v: u64, at: usize) -> Value
    ensures { checked (term_at (suc deeper) (names_in book.now) v book.now at) ≡ headed result (args_at deeper (names_in book.now) v book.now) }
{
    let (kind, e) = read_number(book, at)?;
    match kind {
        0 => leaf(book, v, e),
        1 => leaf(book, constants(book), e),
        2 => application(book, deeper, v, e),
        _ => refuse(Refusal::UnknownKind, at),
    }
}

// A term where so many levels are left, this one counted, and v variables may be named.
pub fn check_term(book: &[u8], left: u64, v: u64, at: usize) -> Checked
    ensures { checking result ≡ checked (term_at left (names_in book.now) v book.now at) }
{
    if left == 0 {
        return refuse(Refusal::TooDeep, at);
    }
    let (count, first) = term_head(book, left - 1, v, at)?;
    let argument = |p: usize|
        requires { 0 < left }
        ensures { checking result ≡ checked (term_at (left - 1) (names_in book.entry.now) v book.entry.now p) }
    { check_term(book, left - 1, v, p) };
    check_many(count, first, argument)
}

// A literal's own terms, at level 1.
pub fn check_terms(book: &[u8], v: u64, count: u64, at: usize) -> Checked
    ensures { checking result ≡ checked (many count (term_at levels (names_in book.now) v book.now) at) }
{
    check_many(count, at, |p| check_term(book, 8, v, p))
}
