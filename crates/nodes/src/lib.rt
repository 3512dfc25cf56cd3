// nodes: the text of a sequent with the book whose head gives the arities, and what stands first in a term and in a literal of
// it. Whoever walks over a text, to look its terms up, to enter them or to know their depth, reads it by these functions.
#![tactic(auto)]

ghost use Rattle.std.specs.Prelude.{◌≤◌, length};
ghost use Rattle.nodes.specs.Heads.{HeadAt, ClaimAt};

use counts::{function_arity, relation_arity};
use words::num16;

// The part of a book that holds a sequent, and the book.
#[derive(Clone, Copy)]
pub struct Text<'a> {
    pub book: &'a [u8],
    pub bytes: &'a [u8],
}

// A term that is no application, by its number.
#[derive(Clone, Copy)]
pub enum Atom {
    Variable(u64),
    Constant(u64),
}

// What stands first in a term: an atom, or what is asked of it, or a function and its arity.
#[derive(Clone, Copy)]
pub enum Head<T> {
    Leaf(T),
    Apply(u64, u64),
}

// What stands first in the term at a place, if there is enough text. A kind that no accepted book has reads as an application.
pub fn head_at(s: &Text<'_>, at: usize) -> Option<Head<Atom>>
    requires { at ≤ length s.now.bytes.now }
    ensures { HeadAt s.now.book.now s.now.bytes.now at result }
{
    if s.bytes.len() - at < 4 {
        return None;
    }
    let k = num16(s.bytes, at + 2);
    Some(match num16(s.bytes, at) {
        0 => Head::Leaf(Atom::Variable(k)),
        1 => Head::Leaf(Atom::Constant(k)),
        _ => Head::Apply(k, function_arity(s.book, k)),
    })
}

// What stands first in a literal: a relation and its arity, or that two terms are the same.
#[derive(Clone, Copy)]
pub enum Claim {
    Fact(u64, u64),
    Same,
}

// What stands first in the literal at a place, if there is enough text. A kind that no accepted book has reads as an identity.
pub fn claim_at(s: &Text<'_>, at: usize) -> Option<Claim>
    requires { at ≤ length s.now.bytes.now }
    ensures { ClaimAt s.now.book.now s.now.bytes.now at result }
{
    if s.bytes.len() - at < 4 {
        return None;
    }
    if num16(s.bytes, at) != 0 {
        return Some(Claim::Same);
    }
    let r = num16(s.bytes, at + 2);
    Some(Claim::Fact(r, relation_arity(s.book, r)))
}
