// choosing: choices of elements for free variables, as indices into the domain, the first variable fastest. Counting on from
// the indices 0, 0, .. visits the choices of the definition, each once and in its order.
#![tactic(auto)]

ghost use Rattle.std.specs.Prelude.{◌≡◌, ◌≤◌, length, take};
ghost use Rattle.choosing.specs.Choosing.{chosen, after, perhaps, Below};

// The indices after these, with a carry; false after the last. The first index is the fastest.
pub fn advance(idx: &mut [usize], nd: usize) -> bool
    requires { Below nd idx.old }
    ensures { (after nd idx.old ≡ perhaps result idx.new) × Below nd idx.new }
{
    for i in 0..idx.len() {
        let x = idx[i] + 1;
        if x < nd {
            idx[i] = x;
            return true;
        }
        idx[i] = 0;
    }
    false
}

// The elements at the indices.
pub fn choose(dom: &[u64], idx: &[usize], env: &mut [u64])
    requires { Below (length dom.now) idx.now × (length idx.now ≤ length env.old) }
    ensures { take (length idx.now) env.new ≡ chosen dom.now idx.now }
{
    for i in 0..idx.len() {
        env[i] = dom[idx[i]];
    }
}
