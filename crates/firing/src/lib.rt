// firing: whether a sequent fires at a choice of elements, and the first choice at which it does. The sequent is given as its
// text, the part of the book that holds it. An environment of at least eight numbers is lent: the chosen elements stand first in
// it, then the witness keys of a disjunct's existentials. A choice is rejected at its first body literal that is not observed.
#![tactic(auto)]

ghost use Rattle.std.specs.Prelude.{◌≡◌, ◌+◌, ◌≤◌, ◌<◌, length, take};
ghost use Rattle.base.specs.Lists.{All};
ghost use Rattle.skips.specs.Rest.{Within};
ghost use Rattle.firing.specs.Answers.{Elements, AllObserved, HaveElements, IsOriginKey, MadeEnv, IsDisjunct, IsHead, Fires, FirstChoice};
ghost use Rattle.firing.specs.Search.{FirstFrom};

use choosing::{advance, choose};
use look::{Packing, Tables, look_variable, observed};
use nodes::Text;
use skips::{skip_disjunct, skip_literal, skip_literals, skip_origin};
use words::num16;

// Are so many literals from a place on all observed?
pub fn literals_observed(s: &Text<'_>, at: usize, n: u64, env: &[u64], t: &Tables<'_>) -> bool
    requires { at ≤ length s.now.bytes.now }
    ensures { AllObserved s.now.book.now s.now.bytes.now at n env.now t.now.keys.now t.now.facts.now t.now.domain.now result }
{
    let mut p = at;
    for _ in 0..n {
        if !observed(s, p, env, t) {
            return false;
        }
        p = skip_literal(s, p);
    }
    true
}

// Do k variables from v on have elements?
pub fn have_elements(env: &[u64], v: usize, k: usize, t: &Tables<'_>) -> bool
    requires { v + k ≤ length env.now }
    ensures { HaveElements v k env.now t.now.keys.now t.now.domain.now result }
{
    // No `all`: its closure would need clauses of its own, longer than the loop.
    for i in 0..k {
        if look_variable(env, (v + i) as u64, t).is_none() {
            return false;
        }
    }
    true
}

// The witness key of the origin at a place, over v chosen elements; 0 if it is none of an accepted book.
pub fn origin_key(text: &[u8], at: usize, env: &[u64], v: usize) -> u64
    requires { (at ≤ length text.now) × Elements env.now v }
    ensures { IsOriginKey text.now at (take v env.now) result }
{
    // The kind stays a number: it is packed, as 3 and the kind.
    let kind = num16(text, at);
    if kind > 1 {
        return 0;
    }
    let n = num16(text, at + 4);
    let mut key = Packing::begin(3 + kind, num16(text, at + 2), n);
    for i in 0..n {
        let j = num16(text, at + 6 + 2 * (i as usize)) as usize;
        if j >= v {
            return 0;
        }
        key = key.place(env[j]);
    }
    key.number
}

// The keys of k origins go behind the v chosen elements. The place behind the origins.
pub fn make_env(s: &Text<'_>, at: usize, k: usize, env: &mut [u64], v: usize) -> usize
    requires { (at ≤ length s.now.bytes.now) × ((v + k ≤ length env.old) × Elements env.old v) }
    ensures { Within at (length s.now.bytes.now) result × ((take v env.new ≡ take v env.old) × MadeEnv s.now.book.now s.now.bytes.now at k env.old v env.new result) }
{
    let mut p = at;
    for i in 0..k {
        env[v + i] = origin_key(s.bytes, p, env, v);
        p = skip_origin(s, p);
    }
    p
}

// Is the disjunct at a place observed, at v chosen elements?
pub fn disjunct_observed(s: &Text<'_>, at: usize, env: &mut [u64], v: usize, t: &Tables<'_>) -> bool
    requires { (at ≤ length s.now.bytes.now) × Elements env.old v }
    ensures env_unchanged { take v env.new ≡ take v env.old }
    ensures disjunct { IsDisjunct s.now.book.now s.now.bytes.now at env.old v t.now.keys.now t.now.facts.now t.now.domain.now result }
{
    if s.bytes.len() - at < 2 {
        return false;
    }
    let k = num16(s.bytes, at) as usize;
    if env.len() - v < k {
        return false;
    }
    let middle = make_env(s, at + 2, k, env, v);
    if s.bytes.len() - middle < 2 {
        return false;
    }
    let n = num16(s.bytes, middle);
    let made = &env[..v + k];
    literals_observed(s, middle + 2, n, made, t) && have_elements(made, v, k, t)
}

// Is one of n disjuncts from a place on observed?
pub fn head_observed(
    s: &Text<'_>,
    at: usize,
    n: u64,
    env: &mut [u64],
    v: usize,
    t: &Tables<'_>,
) -> bool
    requires { (at ≤ length s.now.bytes.now) × Elements env.old v }
    ensures env_unchanged { take v env.new ≡ take v env.old }
    ensures head { IsHead s.now.book.now s.now.bytes.now at n env.old v t.now.keys.now t.now.facts.now t.now.domain.now result }
{
    let mut p = at;
    for _ in 0..n {
        if disjunct_observed(s, p, env, v, t) {
            return true;
        }
        p = skip_disjunct(s, p);
    }
    false
}

// Does the sequent fire at v chosen elements? Its head stands at a place.
pub fn fires(s: &Text<'_>, at: usize, env: &mut [u64], v: usize, t: &Tables<'_>) -> bool
    requires { (at + 2 ≤ length s.now.bytes.now) × ((4 ≤ length s.now.bytes.now) × ((8 ≤ length env.old) × Elements env.old v)) }
    ensures env_unchanged { take v env.new ≡ take v env.old }
    ensures fires { Fires s.now.book.now s.now.bytes.now at env.old v t.now.keys.now t.now.facts.now t.now.domain.now result }
{
    let n = num16(s.bytes, 2);
    if !literals_observed(s, 4, n, &env[..v], t) {
        return false;
    }
    let k = num16(s.bytes, at);
    !head_observed(s, at + 2, k, env, v, t)
}

// The first choice at which the sequent fires, left in the environment, if there is one. Its head stands at a place.
pub fn first_from(s: &Text<'_>, at: usize, v: usize, env: &mut [u64], t: &Tables<'_>) -> bool
    requires fits { (at + 2 ≤ length s.now.bytes.now) × ((4 ≤ length s.now.bytes.now) × ((8 ≤ length env.old) × ((v ≤ 4) × (0 < v → 0 < length t.now.domain.now)))) }
    requires octets { All (λ e. e < 256) t.now.domain.now }
    ensures { FirstFrom s.now.book.now s.now.bytes.now at v t.now.keys.now t.now.facts.now t.now.domain.now result env.new }
{
    let mut room = [0usize; 4];
    let idx = &mut room[..v];
    // A `loop`: a choice comes from the one before it, and `advance` says which is the last.
    loop {
        choose(t.domain, idx, env);
        if fires(s, at, env, v, t) {
            return true;
        }
        if !advance(idx, t.domain.len()) {
            return false;
        }
    }
}

// The first choice at which the sequent fires, if there is one: it is left in the environment. Over an empty domain a sequent
// with free variables has no choice, and one without has one.
pub fn first_choice(s: &Text<'_>, env: &mut [u64], t: &Tables<'_>) -> bool
    requires fits { 8 ≤ length env.old }
    requires octets { All (λ e. e < 256) t.now.domain.now }
    ensures { FirstChoice s.now.book.now s.now.bytes.now t.now.keys.now t.now.facts.now t.now.domain.now result env.new }
{
    if s.bytes.len() < 4 {
        return false;
    }
    let v = num16(s.bytes, 0) as usize;
    if v > 4 || v > 0 && t.domain.is_empty() {
        return false;
    }
    let at = skip_literals(s, 4, num16(s.bytes, 2));
    s.bytes.len() - at >= 2 && first_from(s, at, v, env, t)
}
