// sheetparts: the clauses of a lone sheet's soundness as tests on its bytes: counts within limits, unused room zero, declared
// symbols with their arities, rising entries, known arguments, depths. Readers are total, so any bytes are taken.
#![tactic(auto)]

ghost use Rattle.std.specs.Prelude.{◌≡◌, ◌+◌, ◌*◌, ◌≤◌, ◌<◌, map, get_or, ltb};
ghost use Rattle.rules.specs.Reading.{num};
ghost use Rattle.rules.specs.Sound.{has_arity, declared_as};
ghost use Rattle.texts.specs.Names.{names_in};
ghost use Rattle.limits.specs.Limits.{limits_of};
ghost use Rattle.sheetparts.specs.Tests.{zeros, spare, named, key_number, rises, entry_depth, Lows, shown, unknown, args_known, entry_right, table_right, depths_right, head_right, room_right, body_right, Fair};

use counts::{
    constant_witnesses, constants, function_arity, function_witnesses, functions, relation_arity,
    relations, witness_arity,
};
use limits::{Limits, SLOT_KEYS};
use words::{byte, num16};

// n bytes from a place on are zero. No slice is cut: a place past the end reads as 0. Inlined into the check of a pool its loop was slower.
#[inline(never)]
pub fn zeros(s: &[u8], at: usize, n: usize) -> bool
    requires { (at < 4294967296) × (n < 4294967296) }
    ensures { result ≡ zeros s.now at n }
{
    (0..n).all(|i| byte(s, at + i) == 0)
}

// At most four arguments, and those that are not used are zero.
#[tactic(auto, unfolding(crate::specs::Tests::spare))]
fn spare(s: &[u8], at: usize) -> bool
    requires { at < 2147483648 }
    ensures { result ≡ spare s.now at }
{
    let n = byte(s, at + 2) as usize;
    n <= 4 && zeros(s, at + 3 + n, 4 - n)
}

// A relation with its arity.
#[tactic(auto, unfolding(rules::specs::Sound::has_arity))]
fn related(book: &[u8], symbol: u64, n: u64) -> bool
    ensures { result ≡ has_arity (names_in book.now).relations symbol n }
{
    symbol < relations(book) && relation_arity(book, symbol) == n
}

// A key's symbol with its arity.
fn declared(book: &[u8], kind: u64, symbol: u64, n: u64) -> bool
    ensures { result ≡ declared_as (names_in book.now) kind symbol n }
{
    match kind {
        1 => symbol < constants(book) && n == 0,
        2 => symbol < functions(book) && function_arity(book, symbol) == n,
        3 => symbol < constant_witnesses(book) && n == 0,
        4 => symbol < function_witnesses(book) && witness_arity(book, symbol) == n,
        _ => false,
    }
}

// The seven bytes of a key as a number.
fn key_number(s: &[u8], at: usize) -> u64
    requires { at < 2147483648 }
    ensures { result ≡ key_number s.now at }
{
    (0..7).fold(0, |number, i| number * 256 + byte(s, at + i))
}

// The first entry, or one above the entry before it.
#[tactic(auto, unfolding(crate::specs::Tests::rises))]
fn rises(s: &[u8], at: usize, i: usize) -> bool
    requires { (at < 1073741824) × (i < 65536) }
    ensures { result ≡ rises s.now at i }
{
    i == 0 || key_number(s, at + 8 * i - 8) < key_number(s, at + 8 * i)
}

// The depth that an entry's arguments give, where the depths stand from d on.
fn entry_depth(s: &[u8], d: usize, at: usize) -> u64
    requires { (d < 2147483648) × (at < 2147483648) }
    ensures { (result ≡ entry_depth s.now d at) × (result ≤ 256) }
{
    (0..byte(s, at + 2) as usize)
        .map(|j| byte(s, d + byte(s, at + 3 + j) as usize) + 1)
        .fold(0, u64::max)
}

// For each element the least depth over n keys; what no key yields stays as it was.
pub fn fill(s: &[u8], d: usize, at: usize, n: usize, t: &mut [Option<u16>; 256])
    requires { ((d < 2147483648) × ((at < 1073741824) × (n < 65536))) × Lows s.now d at n n (map shown t.old) }
    ensures { Lows s.now d at 0 n (map shown t.new) }
{
    for i in (0..n).rev() {
        let deep = entry_depth(s, d, at + 8 * i) as u16;
        let e = byte(s, at + 8 * i + 7) as usize;
        t[e] = Some(t[e].map_or(deep, |least| least.min(deep)));
    }
}

// Does some key yield the element?
#[tactic(auto, using(crate::specs::Ways::known), unfolding(crate::specs::Tests::unknown))]
fn known(t: &[Option<u16>; 256], e: u64) -> bool
    requires { e < 256 }
    ensures { result ≡ ltb (get_or (map shown t.now) e 0) unknown }
{
    t[e as usize].is_some()
}

// What a table's entries are held to: a book's symbols, of facts or of keys, a bound of their values, and the least depths.
#[derive(Clone, Copy)]
struct Table<'a> {
    book: &'a [u8],
    facts: bool,
    bound: u64,
    t: &'a [Option<u16>; 256],
}

impl Table<'_> {
    // A fact's symbol, of kind 0, or a key's. A flag says which, as it does in the definition.
    fn named(&self, kind: u64, symbol: u64, n: u64) -> bool
        ensures { result ≡ named (names_in self.now.book.now) self.now.facts kind symbol n }
    {
        if self.facts {
            kind == 0 && related(self.book, symbol, n)
        } else {
            declared(self.book, kind, symbol, n)
        }
    }

    // The arguments of an entry are known: some key yields each.
    fn args_known(&self, s: &[u8], at: usize) -> bool
        requires { at < 2147483648 }
        ensures { result ≡ args_known (map shown self.now.t.now) s.now at }
    {
        let n = byte(s, at + 2) as usize;
        (0..n).all(|j| known(self.t, byte(s, at + 3 + j)))
    }

    // An entry by itself: its symbol, its room, its value below the bound, its arguments.
    #[tactic(auto, unfolding(crate::specs::Tests::entry_right))]
    fn entry_right(&self, s: &[u8], at: usize) -> bool
        requires { at < 2147483648 }
        ensures { result ≡ entry_right (names_in self.now.book.now) self.now.facts self.now.bound (map shown self.now.t.now) s.now at }
    {
        self.named(byte(s, at), byte(s, at + 1), byte(s, at + 2))
            && spare(s, at)
            && byte(s, at + 7) < self.bound
            && self.args_known(s, at)
    }

    // n entries from a place on, each right and above the one before it.
    fn right(&self, s: &[u8], at: usize, n: usize) -> bool
        requires { (at < 1073741824) × (n < 65536) }
        ensures { result ≡ table_right (names_in self.now.book.now) self.now.facts self.now.bound (map shown self.now.t.now) s.now at n }
    {
        (0..n).all(|i| self.entry_right(s, at + 8 * i) && rises(s, at, i))
    }
}

// Each element's depth is the least over its keys; 0 if no key yields it.
fn depths_right(t: &[Option<u16>; 256], s: &[u8], d: usize, n: usize) -> bool
    requires { (d < 2147483648) × (n ≤ 256) }
    ensures { result ≡ depths_right (map shown t.now) s.now d n }
{
    (0..n).all(|e| byte(s, d + e) == t[e].unwrap_or(0) as u64)
}

// Counts within the limits, the place among so many, and the head's unused bytes.
#[tactic(auto, unfolding(crate::specs::Tests::head_right))]
pub fn head_right(slot: &[u8], places: u64, limits: Limits) -> bool
    ensures { result ≡ head_right (limits_of limits) places slot.now }
{
    num16(slot, 4) as usize <= limits.elements
        && num16(slot, 6) as usize <= limits.keys
        && num16(slot, 8) as usize <= limits.facts
        && num16(slot, 2) < places
        && zeros(slot, 10, 6)
}

// The room behind keys, facts and depths.
#[tactic(auto, unfolding(crate::specs::Tests::room_right, crate::specs::Tests::facts_from, crate::specs::Tests::depths_from))]
pub fn room_right(slot: &[u8], limits: Limits) -> bool
    requires { Fair (limits_of limits) × ((num slot.now 4 ≤ limits.elements) × ((num slot.now 6 ≤ limits.keys) × (num slot.now 8 ≤ limits.facts))) }
    ensures { result ≡ room_right (limits_of limits) slot.now }
{
    let c = num16(slot, 4) as usize;
    let k = num16(slot, 6) as usize;
    let f = num16(slot, 8) as usize;
    zeros(slot, SLOT_KEYS + 8 * k, 8 * limits.keys - 8 * k)
        && zeros(
            slot,
            limits.slot_facts_at() + 8 * f,
            8 * limits.facts - 8 * f,
        )
        && zeros(slot, limits.slot_depths_at() + c, limits.elements - c)
}

// Keys, facts and depths, given the least depths over the keys.
#[tactic(auto, unfolding(crate::specs::Tests::body_right, crate::specs::Tests::facts_from, crate::specs::Tests::depths_from))]
pub fn body_right(book: &[u8], t: &[Option<u16>; 256], slot: &[u8], limits: Limits) -> bool
    requires { Fair (limits_of limits) × (num slot.now 4 ≤ 256) }
    ensures { result ≡ body_right (limits_of limits) (names_in book.now) (map shown t.now) slot.now }
{
    let c = num16(slot, 4);
    let k = num16(slot, 6) as usize;
    let f = num16(slot, 8) as usize;
    let keys = Table {
        book,
        facts: false,
        bound: c,
        t,
    };
    let facts = Table {
        book,
        facts: true,
        bound: 1,
        t,
    };
    keys.right(slot, SLOT_KEYS, k)
        && facts.right(slot, limits.slot_facts_at(), f)
        && depths_right(t, slot, limits.slot_depths_at(), c as usize)
}
