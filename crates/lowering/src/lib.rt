// Depths lowered through packed keys until none falls. An element that has no depth in the slice has depth 0.
#![tactic(auto)]

ghost use Rattle.std.specs.Prelude.{◌≡◌, get_or};
ghost use Rattle.rules.specs.Merge.{sum};
ghost use Rattle.lowering.specs.Lower.{deepest, lowest, lower_in};
ghost use Rattle.lowering.specs.Rest.{LoweredAt, LoweredBy};

// The depth of an element.
pub fn depth(depths: &[u64], e: u64) -> u64
    ensures { result ≡ get_or depths.now e 0 }
{
    depths.get(e as usize).map_or(0, |d| *d)
}

// The greatest depth of the entry's arguments, as many as there are of four places. That there are four is known to the compiler, so no loop
// is left in what it builds.
fn deepest(depths: &[u64], x: u64) -> u64
    ensures { result ≡ deepest depths.now x }
{
    (0..4)
        .take(packing::count(x) as usize)
        .map(|i| depth(depths, packing::argument(x, i)))
        .fold(0, u64::max)
}

// The depth of the entry's value, no more than what the entry gives it: one more than the greatest depth, or the most that a number can
// be, so that it cannot wrap.
#[tactic(auto, using(crate::specs::Lower::lowest_none, crate::specs::Lower::lowest_some))]
fn lowest(depths: &[u64], x: u64) -> u64
    ensures { result ≡ lowest depths.now x }
{
    if packing::count(x) == 0 {
        return 0;
    }
    let old = depth(depths, packing::value(x));
    deepest(depths, x).saturating_add(1).min(old)
}

// The value's depth lowered by one key. Has it fallen? Whether the value has a depth is asked before all else.
#[tactic(auto, using(crate::specs::Rest::lowered_none, crate::specs::Rest::lowered_not, crate::specs::Rest::lowered_less))]
fn lower_at(depths: &mut [u64], x: u64) -> bool
    ensures { LoweredAt x depths.old result depths.new }
{
    let v = packing::value(x) as usize;
    if v >= depths.len() {
        return false;
    }
    let low = lowest(depths, x);
    if low < depths[v] {
        depths[v] = low;
        return true;
    }
    false
}

// One pass over the keys. Has any depth fallen?
#[tactic(auto, using(crate::specs::Rest::lowering_end))]
fn lower_by(keys: &[u64], depths: &mut [u64]) -> bool
    ensures { LoweredBy keys.now depths.old result depths.new }
{
    let mut fell = false;
    for x in keys {
        fell |= lower_at(depths, *x);
    }
    fell
}

// Passes until none lowers a depth.
#[tactic(auto, using(crate::specs::Rest::passing_next, crate::specs::Rest::passing_less))]
pub fn lower(keys: &[u64], depths: &mut [u64])
    ensures { depths.new ≡ lower_in (sum depths.old) keys.now depths.old }
{
    let mut fell = true;
    // A `while`: a pass may leave a depth for the next one to lower, so how many there are is not known before.
    while fell {
        fell = lower_by(keys, depths);
    }
}
