// look: the element of the term that stands at a place of a text, over the tables of a sheet, and whether a literal is observed.
// A term is read by its head; its arguments are packed, each at its weight, into the number of its key. Nothing is copied: the tables
// are read where they are, keys and facts by halving, an element through the listed domain.
#![tactic(auto)]

ghost use Rattle.std.specs.Prelude.{◌≡◌, ◌+◌, ◌*◌, ◌/◌, ◌≤◌, ◌<◌, length, Some};
ghost use Rattle.nodes.specs.Heads.{ClaimAt};
ghost use Rattle.nodes.specs.declared.Claim.TheVariants.{Fact, Same};
ghost use Rattle.tables.specs.Table.{Rising, rising_prop};
ghost use Rattle.look.specs.Digits.{start, top, Roomy};
ghost use Rattle.look.specs.Answers.{Octets, IsVariable, LookGood, ArgsGood, IsLook, IsArgs, IsObserved};

use domains::known;
use nodes::{Atom, Claim, Head, Text, claim_at, head_at};

// The tables of a sheet: its packed keys with their values and its packed facts, each in order, and the elements that live.
#[derive(Clone, Copy)]
pub struct Tables<'a> {
    pub keys: &'a [u64],
    pub facts: &'a [u64],
    pub domain: &'a [u64],
    pub ghost keys_rise: { Rising keys.now } by { rising_prop keys.now },
    pub ghost facts_rise: { Rising facts.now } by { rising_prop facts.now },
}

// The weight of a key's first argument.
pub const TOP: u64 = 16777216;

// Packed keys are below this.
pub const KEY_END: u64 = 72057594037927936;

// The number of a key with the arguments so far, and the weight of the next one. However many follow, the number stays within 2 ^ 60.
#[derive(Clone, Copy)]
pub struct Packing {
    pub number: u64,
    pub weight: u64,
    pub ghost roomy: { Roomy number weight },
}

impl Packing {
    // A key before its arguments.
    pub fn begin(kind: u64, symbol: u64, n: u64) -> Packing
        requires { (kind < 256) × ((symbol < 65536) × (n < 65536)) }
        ensures { (result.number ≡ start kind symbol n) × (result.weight ≡ top) }
    {
        Packing {
            number: ((kind * 256 + symbol) * 256 + n) * 4294967296,
            weight: TOP,
        }
    }

    // One argument more, at its weight.
    pub fn place(self, v: u64) -> Packing
        requires { v < 256 }
        ensures { (result.number ≡ self.number + v * self.weight) × (result.weight ≡ self.weight / 256) }
    {
        Packing {
            number: self.number + v * self.weight,
            weight: self.weight / 256,
        }
    }
}

// The element that a variable stands for: itself if it lives, or the value of its witness.
pub fn look_variable(env: &[u64], i: u64, t: &Tables<'_>) -> Option<u64>
    ensures { IsVariable env.now i t.now.keys.now t.now.domain.now result × Octets result }
{
    let x = *env.get(i as usize)?;
    if x >= 256 {
        return tables::look(t.keys, x);
    }
    if known(t.domain, x) { Some(x) } else { None }
}

// The element of the term at a place, and the place behind the term.
#[cycle(look_list_look_term)]
pub fn look_term(s: &Text<'_>, at: usize, env: &[u64], t: &Tables<'_>) -> Option<(u64, usize)>
    requires { at ≤ length s.now.bytes.now }
    ensures look_good { LookGood (length s.now.bytes.now) at result }
    ensures look { IsLook s.now.book.now s.now.bytes.now at env.now t.now.keys.now t.now.domain.now result }
{
    match head_at(s, at)? {
        Head::Leaf(Atom::Variable(i)) => Some((look_variable(env, i, t)?, at + 4)),
        Head::Leaf(Atom::Constant(c)) => {
            let key = Packing::begin(1, c, 0).number;
            Some((tables::look(t.keys, key)?, at + 4))
        }
        Head::Apply(f, n) => {
            let (p, e) = look_list(s, at + 4, n, Packing::begin(2, f, n), env, t)?;
            Some((tables::look(t.keys, p)?, e))
        }
    }
}

// The number of a key with so many arguments more, which stand at a place; and the place behind them.
#[cycle(look_list_look_term)]
pub fn look_list(
    s: &Text<'_>,
    at: usize,
    count: u64,
    acc: Packing,
    env: &[u64],
    t: &Tables<'_>,
) -> Option<(u64, usize)>
    requires { at ≤ length s.now.bytes.now }
    ensures args_good { ArgsGood (length s.now.bytes.now) at result }
    ensures args { IsArgs s.now.book.now s.now.bytes.now at count acc.number acc.weight env.now t.now.keys.now t.now.domain.now result }
{
    if count == 0 {
        return Some((acc.number, at));
    }
    let (v, e) = look_term(s, at, env, t)?;
    look_list(s, e, count - 1, acc.place(v), env, t)
}

// A fact, of a relation to so many terms: all its terms have elements, and it is held.
fn fact_observed(s: &Text<'_>, at: usize, r: u64, n: u64, env: &[u64], t: &Tables<'_>) -> bool
    requires { ClaimAt s.now.book.now s.now.bytes.now at (Some (Fact r n)) }
    ensures { IsObserved s.now.book.now s.now.bytes.now at env.now t.now.keys.now t.now.facts.now t.now.domain.now result }
{
    match look_list(s, at + 4, n, Packing::begin(0, r, n), env, t) {
        None => false,
        Some((p, _)) => tables::contains(t.facts, p),
    }
}

// An identity: both sides have the same element.
fn same_observed(s: &Text<'_>, at: usize, env: &[u64], t: &Tables<'_>) -> bool
    requires { ClaimAt s.now.book.now s.now.bytes.now at (Some Same) }
    ensures { IsObserved s.now.book.now s.now.bytes.now at env.now t.now.keys.now t.now.facts.now t.now.domain.now result }
{
    let Some((a, e)) = look_term(s, at + 2, env, t) else {
        return false;
    };
    let Some((b, _)) = look_term(s, e, env, t) else {
        return false; // both sides are wanted
    };
    a == b
}

// Is the literal at a place observed?
pub fn observed(s: &Text<'_>, at: usize, env: &[u64], t: &Tables<'_>) -> bool
    requires { at ≤ length s.now.bytes.now }
    ensures { IsObserved s.now.book.now s.now.bytes.now at env.now t.now.keys.now t.now.facts.now t.now.domain.now result }
{
    match claim_at(s, at) {
        None => false,
        Some(Claim::Fact(r, n)) => fact_observed(s, at, r, n, env, t),
        Some(Claim::Same) => same_observed(s, at, env, t),
    }
}
