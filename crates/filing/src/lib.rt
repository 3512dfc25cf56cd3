// Tables that are in order filed anew, in place: each entry is put behind those before it. A table is the first entries of a
// slice; of two entries that became one key the pair of values goes onto a stack that grows down from the slice's end. Pairs,
// and lone elements, are renamed as entries are.
#![tactic(auto)]

ghost use Rattle.std.specs.Prelude.{◌≡◌, map, ◌+◌, ◌≤◌, ◌<◌, length, take};
ghost use Rattle.packing.specs.Replace.{key_of, replaced};
ghost use Rattle.tables.specs.Table.{Rising};
ghost use Rattle.tables.specs.Last.{NoneAbove};
ghost use Rattle.renaming.specs.Order.{Sorted};
ghost use Rattle.filing.specs.File.{Filing, Refiled, Refacted};

use packing::{Replacement, key, value};
use tables::{look_last, put_last};

// Where the table ends, and where the stack of pairs begins.
#[derive(Clone, Copy)]
pub struct Ends {
    pub count: usize,
    pub top: usize,
}

// The replacement is made in every entry.
pub fn rename_all(t: &mut [u64], r: Replacement)
    ensures { t.new ≡ map (replaced r.stays r.goes) t.old }
{
    for x in t.iter_mut() {
        *x = r.replace(*x);
    }
}

// The entry x is filed behind those in the table, of which none has a key above its own.
fn file(t: &mut [u64], ends: Ends, x: u64) -> Ends
    requires { (ends.count < ends.top) × ((ends.top ≤ length t.old) × (Rising (take ends.count t.old) × NoneAbove (key_of x) (take ends.count t.old))) }
    ensures { Filing x ends.count ends.top t.old result.count result.top t.new }
{
    let older = look_last(&t[..ends.count], key(x));
    let count = put_last(t, ends.count, x);
    let mut top = ends.top;
    if let Some(v) = older {
        top -= 1;
        t[top] = v * 256 + value(x);
    }
    Ends { count, top }
}

// The table is filed anew, its entries one after another. Between table and stack there is room for as many pairs more.
pub fn refile(t: &mut [u64], ends: Ends) -> Ends
    requires { (ends.count + ends.count ≤ ends.top) × ((ends.top ≤ length t.old) × Sorted (take ends.count t.old)) }
    ensures { Refiled ends.count ends.top t.old result.count result.top t.new }
{
    let mut filed = Ends {
        count: 0,
        top: ends.top,
    };
    for i in 0..ends.count {
        let x = t[i];
        filed = file(t, filed, x);
    }
    filed
}

// The same for facts, where nothing is paired and the slice has no more than them.
pub fn refact(t: &mut [u64]) -> usize
    requires { Sorted t.old }
    ensures { Refacted t.old result t.new }
{
    let mut count = 0;
    for i in 0..t.len() {
        let x = t[i];
        count = put_last(t, count, x);
    }
    count
}
