// enter: recording on the working form of a sheet, arguments first: a key's element, a variable's, a term's.
// A new element's number is the created count; where there is no room for it the answer says so and nothing more is written.
#![tactic(auto)]

ghost use Rattle.std.specs.Prelude.{◌≡◌, ◌+◌, ◌*◌, ◌%◌, ◌≤◌, ◌<◌, length, get_or};
ghost use Rattle.look.specs.Answers.{Octets, LookGood, ArgsGood};
ghost use Rattle.limits.specs.Limits.{limits_of};
ghost use Rattle.sheets.specs.Form.{view_of, Formed};
ghost use Rattle.enter.specs.Grow.{Sturdy};
ghost use Rattle.enter.specs.Keep.{PutKey};
ghost use Rattle.enter.specs.Args.{one_more, above, depth_of, now_at, resolved};
ghost use Rattle.enter.specs.Marks.{Recorded, Meant};
ghost use Rattle.enter.specs.Terms.{IsVariable, IsEnter, IsEnters};

use limits::Limits;
use look::{KEY_END, Packing};
use nodes::{Atom, Head, Text, head_at};
use packing::{argument, count};

// The element of key q, a new one at depth d, if there is room for it.
pub fn put_key(w: &mut [u64], limits: Limits, q: u64, d: u64) -> Option<u64>
    requires { Sturdy (limits_of limits) w.old × (q < 72057594037927936) }
    ensures { PutKey (limits_of limits) q d w.old result w.new }
{
    let created = w[2];
    let n = w[3] as usize;
    let old = tables::look(&w[5..5 + n], q);
    if old.is_some() {
        return old;
    }
    if created >= limits.elements as u64 || n >= limits.keys {
        return None;
    }
    let more = tables::put(&mut w[5..5 + limits.keys], n, q * 256 + created);
    w[limits.depths_at() + created as usize] = d;
    w[2] = created + 1;
    w[3] = more as u64;
    Some(created)
}

// An element's depth; 0 for one that was not created.
pub fn depth_at(w: &[u64], limits: Limits, e: u64) -> u64
    requires { Formed (limits_of limits) w.now }
    ensures { result ≡ get_or (view_of (limits_of limits) w.now).depths e 0 }
{
    if e >= w[2] {
        return 0;
    }
    w[limits.depths_at() + e as usize]
}

// What an element is now.
pub fn now_of(w: &[u64], limits: Limits, e: u64) -> u64
    requires { Formed (limits_of limits) w.now }
    ensures { (result ≡ get_or (view_of (limits_of limits) w.now).history e 0 % 256) × (result < 256) }
{
    if e >= limits.elements as u64 {
        return 0;
    }
    w[limits.history_at() + e as usize] % 256
}

fn one_more(d: u64) -> u64
    ensures { result ≡ one_more d }
{
    d.saturating_add(1).min(65536)
}

// One more than the depth of the i-th argument of an entry, or 0 if there is none.
fn above_argument(w: &[u64], limits: Limits, x: u64, i: u64) -> u64
    requires { Formed (limits_of limits) w.now × (i < 4) }
    ensures { result ≡ above (view_of (limits_of limits) w.now).depths x i }
{
    if i < count(x) {
        return one_more(depth_at(w, limits, argument(x, i)));
    }
    0
}

// The depth over the arguments of an entry.
pub fn depth_over(w: &[u64], limits: Limits, x: u64) -> u64
    requires { Formed (limits_of limits) w.now }
    ensures { result ≡ depth_of (view_of (limits_of limits) w.now).depths x }
{
    let a = above_argument(w, limits, x, 0);
    let b = above_argument(w, limits, x, 1);
    let c = above_argument(w, limits, x, 2);
    let d = above_argument(w, limits, x, 3);
    a.max(b.max(c.max(d)))
}

// What the i-th argument of an entry is now, or 0 if there is none.
fn now_argument(w: &[u64], limits: Limits, x: u64, i: u64) -> u64
    requires { Formed (limits_of limits) w.now × (i < 4) }
    ensures { (result ≡ now_at (view_of (limits_of limits) w.now).history x i) × (result < 256) }
{
    if i < count(x) {
        return now_of(w, limits, argument(x, i));
    }
    0
}

// The key of an entry at what its arguments are now.
pub fn resolve(w: &[u64], limits: Limits, x: u64) -> u64
    requires { Formed (limits_of limits) w.now }
    ensures { (result ≡ resolved (view_of (limits_of limits) w.now).history x) × (result < 72057594037927936) }
{
    let a = now_argument(w, limits, x, 0);
    let b = now_argument(w, limits, x, 1);
    let c = now_argument(w, limits, x, 2);
    let d = now_argument(w, limits, x, 3);
    x / 1099511627776 * 4294967296 + a * 16777216 + b * 65536 + c * 256 + d
}

// The element of key q, a new one at the depth that the key gives it, if there is room for it.
pub fn record_key(w: &mut [u64], limits: Limits, q: u64) -> Option<u64>
    requires { Sturdy (limits_of limits) w.old }
    ensures { Recorded (limits_of limits) q w.old result w.new }
{
    if q >= KEY_END {
        return None;
    }
    let d = depth_over(w, limits, q * 256);
    put_key(w, limits, q, d)
}

// The element of what a variable stands for: what the element is now, or that of the witness over what its arguments are now.
pub fn record_meaning(w: &mut [u64], limits: Limits, x: u64) -> Option<u64>
    requires { Sturdy (limits_of limits) w.old }
    ensures { Meant (limits_of limits) x w.old result w.new }
{
    if x < 256 {
        return Some(now_of(w, limits, x));
    }
    if x >= KEY_END {
        return None;
    }
    let q = resolve(w, limits, x * 256);
    record_key(w, limits, q)
}

// The element of a variable.
pub fn enter_variable(env: &[u64], i: u64, w: &mut [u64], limits: Limits) -> Option<u64>
    requires { Sturdy (limits_of limits) w.old }
    ensures octets { Octets result }
    ensures sturdy { Sturdy (limits_of limits) w.new }
    ensures variable { IsVariable (limits_of limits) env.now i w.old result w.new }
{
    let x = *env.get(i as usize)?;
    record_meaning(w, limits, x)
}

// The element of the term at a place, its arguments' first, and the place behind the term; or there is no room.
#[cycle(enter_list_enter_term)]
pub fn enter_term(
    s: &Text<'_>,
    at: usize,
    env: &[u64],
    w: &mut [u64],
    limits: Limits,
) -> Option<(u64, usize)>
    requires { (at ≤ length s.now.bytes.now) × Sturdy (limits_of limits) w.old }
    ensures enter_good { LookGood (length s.now.bytes.now) at result }
    ensures sturdy { Sturdy (limits_of limits) w.new }
    ensures enter { IsEnter s.now.book.now s.now.bytes.now at (limits_of limits) env.now w.old result w.new }
{
    match head_at(s, at)? {
        Head::Leaf(Atom::Variable(i)) => Some((enter_variable(env, i, w, limits)?, at + 4)),
        Head::Leaf(Atom::Constant(c)) => {
            let key = Packing::begin(1, c, 0).number;
            Some((record_key(w, limits, key)?, at + 4))
        }
        Head::Apply(f, n) => {
            let (p, e) = enter_list(s, at + 4, n, Packing::begin(2, f, n), env, w, limits)?;
            Some((record_key(w, limits, p)?, e))
        }
    }
}

// The number of a key with so many arguments more, which stand at a place; and the place behind them.
#[cycle(enter_list_enter_term)]
pub fn enter_list(
    s: &Text<'_>,
    at: usize,
    count: u64,
    acc: Packing,
    env: &[u64],
    w: &mut [u64],
    limits: Limits,
) -> Option<(u64, usize)>
    requires { (at ≤ length s.now.bytes.now) × Sturdy (limits_of limits) w.old }
    ensures enters_good { ArgsGood (length s.now.bytes.now) at result }
    ensures sturdy { Sturdy (limits_of limits) w.new }
    ensures enters { IsEnters s.now.book.now s.now.bytes.now at count acc.number acc.weight (limits_of limits) env.now w.old result w.new }
{
    if count == 0 {
        return Some((acc.number, at));
    }
    let (v, e) = enter_term(s, at, env, w, limits)?;
    enter_list(s, e, count - 1, acc.place(v), env, w, limits)
}
