// bound: the bound on a literal's unknown terms. Its own terms are asked for, left to right, each by the size of the domain and the
// count of unknown ones before it, and by its depth; terms inside them only lend their depths.
#![tactic(auto)]

ghost use Rattle.std.specs.Prelude.{◌≡◌, ◌+◌, ◌≤◌, ◌<◌, length};
ghost use Rattle.rules.specs.Bound.{admits};
ghost use Rattle.rules.specs.Calls.{bound_of};
ghost use Rattle.limits.specs.Limits.{limits_of};
ghost use Rattle.sheets.specs.Form.{view_of};
ghost use Rattle.enter.specs.Grow.{Sturdy, sturdy_prop};
ghost use Rattle.bound.specs.Bounds.{bound_is, ReadsBound};
ghost use Rattle.bound.specs.Seen.{DepthMeant};
ghost use Rattle.bound.specs.Answers.{DepthGood, DepthsGood, AskGood, IsDepthVariable, IsDepth, IsDepths, IsAsked, IsAdmitted};

use enter::{depth_at, depth_over, now_of, resolve};
use limits::Limits;
use look::{KEY_END, Tables, look_term};
use nodes::{Atom, Head, Text, head_at};
use refusals::Refusal;

// A working form, with its tables for lookup.
#[derive(Clone, Copy)]
pub struct Form<'a> {
    pub w: &'a [u64],
    pub limits: Limits,
    pub tables: Tables<'a>,
    pub ghost keys_are: { tables.keys.now ≡ (view_of (limits_of limits) w.now).keys },
    pub ghost sturdy: { Sturdy (limits_of limits) w.now } by { sturdy_prop (limits_of limits) w.now },
}

// What a term that is not known yet may be.
#[derive(Clone, Copy)]
pub enum Bound {
    Unbounded,
    DomainSize(u64),
    DepthPure(u64),
    DepthReuse(u64),
}

impl Bound {
    // The bound that a kind and a number stand for, whatever they are: 0 for unbounded, 1 for a domain's size, 2 for a depth pure, and
    // any other for a depth reuse.
    #[tactic(auto, using(crate::specs::Bounds::reuse_of), unfolding(rules::specs::Calls::bound_of))]
    pub fn of_numbers(kind: u64, number: u64) -> Bound
        ensures { bound_is result ≡ bound_of kind number }
    {
        match kind {
            0 => Bound::Unbounded,
            1 => Bound::DomainSize(number),
            2 => Bound::DepthPure(number),
            _ => Bound::DepthReuse(number),
        }
    }

    // Does the bound admit a term by the size of the domain and its depth?
    pub fn admits(self, size: u64, depth: u64) -> bool
        ensures { result ≡ admits (bound_is self) size depth }
    {
        match self {
            Bound::Unbounded => true,
            Bound::DomainSize(n) => size < n,
            Bound::DepthPure(n) | Bound::DepthReuse(n) => depth <= n,
        }
    }
}

// The bound that a call names by its kind and a number. Unbounded has no number, and says 0.
impl TryFrom<(u32, u32)> for Bound {
    type Error = Refusal;

    ghost try_from_gives = { λ n r. ReadsBound n.0 n.1 r };

    fn try_from(setting: (u32, u32)) -> Result<Self, Refusal> {
        match setting {
            (0, 0) => Ok(Bound::Unbounded),
            (kind @ 1..=3, n) => Ok(Bound::of_numbers(kind as u64, n as u64)),
            _ => Err(Refusal::UnknownSetting),
        }
    }
}

// The depth of what a variable stands for, with what elements are now.
fn depth_meaning(w: &[u64], limits: Limits, x: u64) -> u64
    requires { Sturdy (limits_of limits) w.now }
    ensures { DepthMeant (limits_of limits) x w.now result }
{
    if x < 256 {
        return depth_at(w, limits, now_of(w, limits, x)) % 65536;
    }
    if x >= KEY_END {
        return 0;
    }
    let q = resolve(w, limits, x * 256);
    depth_over(w, limits, q * 256)
}

// The depth of a variable that is unknown.
pub fn depth_variable(env: &[u64], i: u64, w: &[u64], limits: Limits) -> u64
    requires { Sturdy (limits_of limits) w.now }
    ensures { (result ≤ 65536) × IsDepthVariable (limits_of limits) env.now i w.now result }
{
    match env.get(i as usize) {
        Some(x) => depth_meaning(w, limits, *x),
        None => 0,
    }
}

// The depth of the term at a place, its element's if it is known, and the place behind the term; or the text is too short.
#[cycle(depth_list_depth_term)]
pub fn depth_term(s: &Text<'_>, at: usize, env: &[u64], f: &Form<'_>) -> Option<(u64, usize)>
    requires { at ≤ length s.now.bytes.now }
    ensures depth_good { DepthGood (length s.now.bytes.now) at result }
    ensures depth { IsDepth s.now.book.now s.now.bytes.now at (limits_of f.now.limits) env.now f.now.w.now f.now.tables.domain.now result }
{
    if let Some((v, e)) = look_term(s, at, env, &f.tables) {
        return Some((depth_at(f.w, f.limits, v) % 65536, e));
    }
    match head_at(s, at)? {
        Head::Leaf(Atom::Variable(i)) => Some((depth_variable(env, i, f.w, f.limits), at + 4)),
        Head::Leaf(Atom::Constant(_)) => Some((0, at + 4)),
        Head::Apply(k, n) => depth_list(s, at + 4, n, env, f),
    }
}

// The depth over the arguments at a place, so many, and the place behind them.
#[cycle(depth_list_depth_term)]
pub fn depth_list(
    s: &Text<'_>,
    at: usize,
    count: u64,
    env: &[u64],
    f: &Form<'_>,
) -> Option<(u64, usize)>
    requires { at ≤ length s.now.bytes.now }
    ensures depths_good { DepthsGood (length s.now.bytes.now) at result }
    ensures depths { IsDepths s.now.book.now s.now.bytes.now at count (limits_of f.now.limits) env.now f.now.w.now f.now.tables.domain.now result }
{
    if count == 0 {
        return Some((0, at));
    }
    let (d, e) = depth_term(s, at, env, f)?;
    let (r, g) = depth_list(s, e, count - 1, env, f)?;
    Some(((d + 1).max(r), g))
}

// The term at a place put to the bound, unless it is known: the place behind it and the count with it, or it is refused.
fn ask(
    s: &Text<'_>,
    at: usize,
    b: Bound,
    size: u64,
    env: &[u64],
    f: &Form<'_>,
) -> Option<(usize, u64)>
    requires { (at ≤ length s.now.bytes.now) × (size < 9223372036854775808) }
    ensures ask_good { AskGood (length s.now.bytes.now) at size result }
    ensures asked { IsAsked s.now.book.now s.now.bytes.now at (bound_is b) size (limits_of f.now.limits) env.now f.now.w.now f.now.tables.domain.now result }
{
    if let Some((_, e)) = look_term(s, at, env, &f.tables) {
        return Some((e, size));
    }
    let (d, e) = depth_term(s, at, env, f)?;
    if b.admits(size, d) {
        return Some((e, size + 1));
    }
    None
}

// Does the bound admit the unknown ones among the terms at a place, so many?
pub fn admitted(
    s: &Text<'_>,
    at: usize,
    count: u64,
    b: Bound,
    size: u64,
    env: &[u64],
    f: &Form<'_>,
) -> bool
    requires { (at ≤ length s.now.bytes.now) × (size + count < 9223372036854775808) }
    ensures { IsAdmitted s.now.book.now s.now.bytes.now at count (bound_is b) size (limits_of f.now.limits) env.now f.now.w.now f.now.tables.domain.now result }
{
    let mut p = at;
    let mut n = size;
    for _ in 0..count {
        let Some((e, more)) = ask(s, p, b, n, env, f) else {
            return false;
        };
        p = e;
        n = more;
    }
    true
}
