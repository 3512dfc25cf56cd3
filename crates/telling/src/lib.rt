// telling: a literal told to a child in the working form of a sheet. It is skipped if the bound refuses one of its unknown terms, left
// as it is if it is observed, and recorded otherwise: its terms first, then the fact, or the merge of the two sides. Where there is no
// room for it, the child is too large.
#![tactic(auto)]

ghost use Rattle.std.specs.Prelude.{◌≡◌, ◌+◌, ◌≤◌, ◌<◌, length};
ghost use Rattle.limits.specs.Limits.{limits_of};
ghost use Rattle.enter.specs.Grow.{Sturdy};
ghost use Rattle.bound.specs.Bounds.{bound_is};
ghost use Rattle.refusals.specs.declared.Refusal.TheVariants.{ChildTooLarge};
ghost use Rattle.telling.specs.Facts.{PutFact};
ghost use Rattle.telling.specs.Literals.{IsRecorded, IsAllowed, IsJudged, IsTold};

use bound::{Bound, Form, admitted};
use enter::{enter_list, enter_term};
use limits::Limits;
use look::{KEY_END, Packing, observed};
use merge::merge;
use nodes::{Claim, Text, claim_at};
use refusals::Refusal;
use showing::tables_of;

// What stays while a child is told: the text with its book, the bound, what the variables stand for, and the limits.
#[derive(Clone, Copy)]
pub struct Case<'a> {
    pub text: Text<'a>,
    pub bound: Bound,
    pub env: &'a [u64],
    pub limits: Limits,
}

// A literal before it is told: skipped, observed already, or new.
#[derive(Clone, Copy)]
pub enum Judged {
    Cut,
    Seen,
    New,
}

// The child needs more room than there is.
#[derive(Clone, Copy, Debug, PartialEq, Eq)]
pub struct TooLarge;

impl From<TooLarge> for Refusal {
    ghost from_gives = { λ _ r. r ≡ ChildTooLarge };

    fn from(_e: TooLarge) -> Refusal {
        Refusal::ChildTooLarge
    }
}

// The fact q into its place.
pub fn put_fact(w: &mut [u64], limits: Limits, q: u64) -> Result<(), TooLarge>
    requires { Sturdy (limits_of limits) w.old × (q < 72057594037927936) }
    ensures { PutFact (limits_of limits) q w.old result w.new }
{
    let n = w[4] as usize;
    let b = limits.facts_at();
    if n < limits.facts {
        let more = tables::put(&mut w[b..b + limits.facts], n, q * 256);
        w[4] = more as u64;
        return Ok(());
    }
    if tables::contains(&w[b..b + n], q) {
        return Ok(());
    }
    Err(TooLarge)
}

// The literal at a place recorded: a fact's terms are entered and then the fact, both sides of an identity are entered and made one.
pub fn record_literal(case: &Case<'_>, at: usize, w: &mut [u64]) -> Result<(), TooLarge>
    requires { (at ≤ length case.now.text.bytes.now) × Sturdy (limits_of case.now.limits) w.old }
    ensures sturdy { Sturdy (limits_of case.now.limits) w.new }
    ensures recorded { IsRecorded case.now.text.book.now case.now.text.bytes.now at (limits_of case.now.limits) case.now.env.now w.old result w.new }
{
    let s = &case.text;
    let _bytes = s.bytes; // a read, by which its length is known to fit a sum
    match claim_at(s, at) {
        None => Err(TooLarge),
        Some(Claim::Fact(r, n)) => {
            let acc = Packing::begin(0, r, n);
            let (p, _) = enter_list(s, at + 4, n, acc, case.env, w, case.limits).ok_or(TooLarge)?;
            if p >= KEY_END {
                return Err(TooLarge);
            }
            put_fact(w, case.limits, p)
        }
        Some(Claim::Same) => {
            let (a, e) = enter_term(s, at + 2, case.env, w, case.limits).ok_or(TooLarge)?;
            let (b, _) = enter_term(s, e, case.env, w, case.limits).ok_or(TooLarge)?;
            merge(w, case.limits, a, b);
            Ok(())
        }
    }
}

// Does the bound admit the unknown terms of the literal at a place?
fn allowed(case: &Case<'_>, at: usize, f: &Form<'_>) -> bool
    requires { at ≤ length case.now.text.bytes.now }
    ensures { IsAllowed case.now.text.book.now case.now.text.bytes.now at (bound_is case.now.bound) (length f.now.tables.domain.now) (limits_of f.now.limits) case.now.env.now f.now.w.now f.now.tables.domain.now result }
{
    let s = &case.text;
    let _bytes = s.bytes; // a read, by which its length is known to fit a sum
    let size = f.tables.domain.len() as u64;
    match claim_at(s, at) {
        None => false,
        Some(Claim::Fact(_, n)) => admitted(s, at + 4, n, case.bound, size, case.env, f),
        Some(Claim::Same) => admitted(s, at + 2, 2, case.bound, size, case.env, f),
    }
}

// The literal at a place before it is told.
fn judge(case: &Case<'_>, at: usize, w: &[u64], dom: &mut [u64]) -> Judged
    requires { (at ≤ length case.now.text.bytes.now) × ((case.now.limits.keys ≤ length dom.old) × Sturdy (limits_of case.now.limits) w.now) }
    ensures { IsJudged case.now.text.book.now case.now.text.bytes.now at (bound_is case.now.bound) (limits_of case.now.limits) case.now.env.now w.now result }
{
    let limits = case.limits;
    let tables = tables_of(w, limits, dom);
    let f = Form { w, limits, tables };
    if !allowed(case, at, &f) {
        return Judged::Cut;
    }
    if observed(&case.text, at, case.env, &tables) {
        return Judged::Seen;
    }
    Judged::New
}

// The literal at a place told to the child, of which one was skipped before or not. The answer: was one skipped by now?
pub fn tell(
    case: &Case<'_>,
    at: usize,
    cut: bool,
    w: &mut [u64],
    dom: &mut [u64],
) -> Result<bool, TooLarge>
    requires { (at ≤ length case.now.text.bytes.now) × ((case.now.limits.keys ≤ length dom.old) × Sturdy (limits_of case.now.limits) w.old) }
    ensures sturdy { Sturdy (limits_of case.now.limits) w.new }
    ensures told { IsTold case.now.text.book.now case.now.text.bytes.now at (bound_is case.now.bound) (limits_of case.now.limits) case.now.env.now cut w.old result w.new }
{
    match judge(case, at, w, dom) {
        Judged::Cut => Ok(true),
        Judged::Seen => Ok(cut),
        Judged::New => {
            record_literal(case, at, w)?;
            Ok(cut)
        }
    }
}
