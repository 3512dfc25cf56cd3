// Two elements of a sheet made one in its working form: the smaller survives in keys, facts and history, with the smaller depth;
// keys that become equal give pairs to be merged in turn; in the end depths are lowered until none falls.
#![tactic(auto)]

ghost use Rattle.std.specs.Prelude.{◌≡◌, ◌+◌, ◌≤◌, ◌<◌, get_or};
ghost use Rattle.limits.specs.Limits.{limits_of, facts_at};
ghost use Rattle.sheets.specs.Form.{Formed};
ghost use Rattle.merge.specs.Into.{keys_room, Orderly, IntoForm};
ghost use Rattle.merge.specs.Next.{Stacked, NextForm, AllForm};
ghost use Rattle.merge.specs.Merged.{MergedForm};

use filing::Ends;
use limits::Limits;
use packing::Replacement;

// How many places keys and pairs have together.
fn keys_room(limits: Limits) -> usize
    requires { facts_at (limits_of limits) < 18446744073709551616 }
    ensures { result ≡ keys_room (limits_of limits) }
{
    1 + limits.keys + limits.keys
}

// One element takes another's place. The places between keys and pairs are spare for either table. Where the pairs begin afterwards.
// It stays a function of the archive, where tests/calls/merging counts the instructions of a pair apart from those of lowering.
#[inline(never)]
pub fn merge_into(w: &mut [u64], limits: Limits, top: usize, r: Replacement) -> usize
    requires { Formed (limits_of limits) w.old × (Orderly (limits_of limits) w.old × ((get_or w.old 3 0 + limits.keys ≤ top) × ((top ≤ keys_room (limits_of limits)) × (r.stays < r.goes)))) }
    ensures { IntoForm (limits_of limits) r.stays r.goes top w.old result w.new }
{
    let created = w[2] as usize;
    let keys = w[3] as usize;
    let facts = w[4] as usize;
    let f = limits.facts_at();
    let d = limits.depths_at();
    let h = limits.history_at();
    let (front, back) = w.split_at_mut(f);
    let spare = &mut front[5 + keys..5 + keys + facts];
    let left = joining::join_facts(&mut back[..facts], spare, r);
    let ends = joining::join_keys(&mut w[5..f], Ends { count: keys, top }, r);
    joining::join_depths(&mut w[d..d + created], r);
    filing::rename_all(&mut w[h..h + limits.elements], r);
    w[3] = ends.count as u64;
    w[4] = left as u64;
    ends.top
}

// The newest pair's two elements become one, if they are not one already. Where the pairs begin afterwards.
fn merge_next(w: &mut [u64], limits: Limits, top: usize) -> usize
    requires { Stacked (limits_of limits) top w.old × (top < keys_room (limits_of limits)) }
    ensures { NextForm (limits_of limits) top w.old result w.new }
{
    let p = w[5 + top];
    let x = p / 256;
    let y = p % 256;
    if x == y {
        return top + 1;
    }
    let r = Replacement {
        stays: x.min(y),
        goes: x.max(y),
    };
    merge_into(w, limits, top + 1, r)
}

// The pairs from start on, one after another, with all that follow from them.
fn merge_all(w: &mut [u64], limits: Limits, start: usize)
    requires { Stacked (limits_of limits) start w.old }
    ensures { AllForm (limits_of limits) start w.old w.new }
{
    let room = keys_room(limits);
    let mut top = start;
    // A `while`: a pair may add others, so how many there are is not known before.
    while top < room {
        top = merge_next(w, limits, top);
    }
}

// Elements a and b become one, with all that follows from it, and depths are lowered until none falls.
pub fn merge(w: &mut [u64], limits: Limits, a: u64, b: u64)
    requires { Formed (limits_of limits) w.old × (Orderly (limits_of limits) w.old × ((a < 256) × (b < 256))) }
    ensures { MergedForm (limits_of limits) a b w.old w.new }
{
    let start = keys_room(limits) - 1;
    w[5 + start] = a * 256 + b;
    merge_all(w, limits, start);
    let created = w[2] as usize;
    let keys = w[3] as usize;
    let (front, back) = w.split_at_mut(limits.depths_at());
    lowering::lower(&front[5..5 + keys], &mut back[..created]);
}
