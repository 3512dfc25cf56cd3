// child: a child from a disjunct, made in the working form that holds the base: its literals are told in order, and then "v = v" for
// each existential that no literal has. Each telling answers whether a literal was skipped by now, and ends where the child is too
// large.
#![tactic(auto)]

ghost use Rattle.std.specs.Prelude.{false, ◌+◌, ◌≤◌, ◌<◌, length};
ghost use Rattle.limits.specs.Limits.{limits_of};
ghost use Rattle.enter.specs.Grow.{Sturdy};
ghost use Rattle.bound.specs.Bounds.{bound_is};
ghost use Rattle.child.specs.Own.{IsJudged, IsRecorded, IsOwn};
ghost use Rattle.child.specs.Tells.{IsTells};
ghost use Rattle.child.specs.Owns.{IsExistential, IsOwns};
ghost use Rattle.child.specs.Whole.{IsChild};

use bound::depth_variable;
use enter::enter_variable;
use look::look_variable;
use mentions::mentioned;
use merge::merge;
use showing::tables_of;
use skips::{skip_literal, skip_origins};
use telling::{Case, Judged, TooLarge, tell};
use words::num16;

// "v = v" before it is told: its two sides are put to the bound one after the other.
fn judge_own(case: &Case<'_>, v: u64, w: &[u64], dom: &mut [u64]) -> Judged
    requires { (case.now.limits.keys ≤ length dom.old) × Sturdy (limits_of case.now.limits) w.now }
    ensures { IsJudged (bound_is case.now.bound) (limits_of case.now.limits) case.now.env.now v w.now result }
{
    let t = tables_of(w, case.limits, dom);
    if look_variable(case.env, v, &t).is_some() {
        return Judged::Seen;
    }
    let size = t.domain.len() as u64;
    let d = depth_variable(case.env, v, w, case.limits);
    if case.bound.admits(size, d) && case.bound.admits(size + 1, d) {
        return Judged::New;
    }
    Judged::Cut
}

// "v = v" recorded.
fn record_own(case: &Case<'_>, v: u64, w: &mut [u64]) -> Result<(), TooLarge>
    requires { Sturdy (limits_of case.now.limits) w.old }
    ensures sturdy { Sturdy (limits_of case.now.limits) w.new }
    ensures recorded { IsRecorded (limits_of case.now.limits) case.now.env.now v w.old result w.new }
{
    let x = enter_variable(case.env, v, w, case.limits).ok_or(TooLarge)?;
    let y = enter_variable(case.env, v, w, case.limits).ok_or(TooLarge)?;
    merge(w, case.limits, x, y);
    Ok(())
}

// "v = v" told to the child, of which a literal was skipped before or not.
fn tell_own(
    case: &Case<'_>,
    v: u64,
    cut: bool,
    w: &mut [u64],
    dom: &mut [u64],
) -> Result<bool, TooLarge>
    requires { (case.now.limits.keys ≤ length dom.old) × Sturdy (limits_of case.now.limits) w.old }
    ensures sturdy { Sturdy (limits_of case.now.limits) w.new }
    ensures own { IsOwn (bound_is case.now.bound) (limits_of case.now.limits) case.now.env.now v cut w.old result w.new }
{
    match judge_own(case, v, w, dom) {
        Judged::Cut => Ok(true),
        Judged::Seen => Ok(cut),
        Judged::New => {
            record_own(case, v, w)?;
            Ok(cut)
        }
    }
}

// Existential v of a disjunct with n literals from a place on: "v = v" told, if no literal has it.
fn tell_existential(
    case: &Case<'_>,
    at: usize,
    n: u64,
    v: u64,
    cut: bool,
    w: &mut [u64],
    dom: &mut [u64],
) -> Result<bool, TooLarge>
    requires { (at ≤ length case.now.text.bytes.now) × ((case.now.limits.keys ≤ length dom.old) × Sturdy (limits_of case.now.limits) w.old) }
    ensures sturdy { Sturdy (limits_of case.now.limits) w.new }
    ensures existential { IsExistential case.now.text.book.now case.now.text.bytes.now at n (bound_is case.now.bound) (limits_of case.now.limits) case.now.env.now v cut w.old result w.new }
{
    if mentioned(&case.text, at, n, v) {
        return Ok(cut);
    }
    tell_own(case, v, cut, w, dom)
}

// n literals from a place on, told in order.
fn tells(
    case: &Case<'_>,
    at: usize,
    n: u64,
    w: &mut [u64],
    dom: &mut [u64],
) -> Result<bool, TooLarge>
    requires { (at ≤ length case.now.text.bytes.now) × ((case.now.limits.keys ≤ length dom.old) × Sturdy (limits_of case.now.limits) w.old) }
    ensures sturdy { Sturdy (limits_of case.now.limits) w.new }
    ensures tells { IsTells case.now.text.book.now case.now.text.bytes.now at n (bound_is case.now.bound) (limits_of case.now.limits) case.now.env.now false w.old result w.new }
{
    let mut p = at;
    let mut cut = false;
    for _ in 0..n {
        cut = tell(case, p, cut, w, dom)?;
        p = skip_literal(&case.text, p);
    }
    Ok(cut)
}

// Existentials v, v + 1, .., so many.
fn tell_owns(
    case: &Case<'_>,
    at: usize,
    n: u64,
    v: u64,
    count: u64,
    before: bool,
    w: &mut [u64],
    dom: &mut [u64],
) -> Result<bool, TooLarge>
    requires { (at ≤ length case.now.text.bytes.now) × ((v + count < 9223372036854775808) × ((case.now.limits.keys ≤ length dom.old) × Sturdy (limits_of case.now.limits) w.old)) }
    ensures sturdy { Sturdy (limits_of case.now.limits) w.new }
    ensures owns { IsOwns case.now.text.book.now case.now.text.bytes.now at n (bound_is case.now.bound) (limits_of case.now.limits) case.now.env.now v count before w.old result w.new }
{
    let mut cut = before;
    for i in 0..count {
        cut = tell_existential(case, at, n, v + i, cut, w, dom)?;
    }
    Ok(cut)
}

// The child of the disjunct at a place, with so many free variables, in the form that holds the base.
pub fn child(
    case: &Case<'_>,
    at: usize,
    free: u64,
    w: &mut [u64],
    dom: &mut [u64],
) -> Result<bool, TooLarge>
    requires { (at ≤ length case.now.text.bytes.now) × ((free < 65536) × ((case.now.limits.keys ≤ length dom.old) × Sturdy (limits_of case.now.limits) w.old)) }
    ensures sturdy { Sturdy (limits_of case.now.limits) w.new }
    ensures child { IsChild case.now.text.book.now case.now.text.bytes.now at free (bound_is case.now.bound) (limits_of case.now.limits) case.now.env.now w.old result w.new }
{
    let text = &case.text;
    if text.bytes.len() - at < 2 {
        return Err(TooLarge);
    }
    let count = num16(text.bytes, at);
    let middle = skip_origins(text, at + 2, count);
    if text.bytes.len() - middle < 2 {
        return Err(TooLarge);
    }
    let n = num16(text.bytes, middle);
    let cut = tells(case, middle + 2, n, w, dom)?;
    tell_owns(case, middle + 2, n, free, count, cut, w, dom)
}
