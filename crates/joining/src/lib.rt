// Two elements become one in each table of a sheet: the one that goes is renamed to the one that stays, and the table is put in
// order again and filed anew. Keys stand in front of a slice that has the pairs waiting to be merged at its end; of two keys that
// become equal one stays, and their values are one more pair.
#![tactic(auto)]

ghost use Rattle.std.specs.Prelude.{◌≡◌, ◌+◌, ◌≤◌, ◌<◌, length, take, set};
ghost use Rattle.rules.specs.Merge.{merge_depths};
ghost use Rattle.renaming.specs.Order.{Sorted};
ghost use Rattle.joining.specs.Leaf.{JoinedKeys, JoinedFacts};

use filing::Ends;
use lowering::depth;
use packing::Replacement;

// The keys, and the pairs that wait; between them there is room for as many pairs more as there are keys.
pub fn join_keys(t: &mut [u64], ends: Ends, r: Replacement) -> Ends
    requires { (ends.count + ends.count ≤ ends.top) × ((ends.top ≤ length t.old) × ((r.stays < r.goes) × Sorted (take ends.count t.old))) }
    ensures { JoinedKeys r.stays r.goes ends.count ends.top t.old result.count result.top t.new }
{
    let (table, rest) = t.split_at_mut(ends.count);
    renaming::rename_table(table, &mut rest[..ends.count], r);
    filing::rename_all(&mut t[ends.top..], r);
    filing::refile(t, ends)
}

// The facts, with a spare slice that is as long. How many are left.
#[tactic(auto, using(crate::specs::Leaf::facts_sorted, crate::specs::Leaf::joined_facts))]
pub fn join_facts(table: &mut [u64], spare: &mut [u64], r: Replacement) -> usize
    requires { (length table.old ≤ length spare.old) × ((r.stays < r.goes) × Sorted table.old) }
    ensures { JoinedFacts r.stays r.goes table.old result table.new }
{
    renaming::rename_table(table, spare, r);
    filing::refact(table)
}

// An entry put at a place, if there is such a place. By index, since nothing is known of a slice after its `get_mut`.
fn set(t: &mut [u64], i: u64, v: u64)
    ensures { t.new ≡ set t.old i v }
{
    if i < t.len() as u64 {
        t[i as usize] = v;
    }
}

// The smaller depth is kept for the one that stays, and the one that goes has none.
pub fn join_depths(t: &mut [u64], r: Replacement)
    ensures { t.new ≡ merge_depths r.stays r.goes t.old }
{
    let low = depth(t, r.stays).min(depth(t, r.goes));
    set(t, r.stays, low);
    set(t, r.goes, 0);
}
