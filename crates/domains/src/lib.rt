// domains: the elements of a sheet, in order of first appearance, and whether an element is one of them.
// An element is found through the listed domain: one that was merged away is in no list.
#![tactic(auto)]

ghost use Rattle.std.specs.Prelude.{◌≡◌, map, ◌≤◌, length, take};
ghost use Rattle.base.specs.Lists.{mem, firsts};
ghost use Rattle.packing.specs.Replace.{value_of};

use packing::value;

// Is e one of the elements?
pub fn known(dom: &[u64], e: u64) -> bool
    ensures { result ≡ mem e dom.now }
{
    dom.contains(&e)
}

// The values of the entries, each once, in order of first appearance. How many there are.
pub fn list_domain(keys: &[u64], dom: &mut [u64]) -> usize
    requires { length keys.now ≤ length dom.old }
    ensures { (take result dom.new ≡ firsts (map value_of keys.now)) × (result ≤ length keys.now) }
{
    let mut nd = 0;
    for x in keys {
        let e = value(*x);
        if !known(&dom[..nd], e) {
            dom[nd] = e;
            nd += 1;
        }
    }
    nd
}
