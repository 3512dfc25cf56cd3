// Sorted tables of packed entries: numbers in the order of their keys, which are the numbers / 256. A key's value is the number % 256. A
// table of facts is one whose values are 0.
#![tactic(auto)]

ghost use Rattle.std.specs.Prelude.{◌≡◌, ◌≤◌, ◌<◌, length, take, IfSome, MatchOption};
ghost use Rattle.std.proofs.Math.Option.{none, some};
ghost use Rattle.tables.specs.Table.{rank, look_in, option_of, is_some, Rising};
ghost use Rattle.packing.specs.Replace.{key_of};
ghost use Rattle.tables.specs.Ways.{Put};
ghost use Rattle.tables.specs.Last.{NoneAbove};

use packing::{key, value};

// How many entries stand before the first whose key is not below q, by halving.
pub fn rank(t: &[u64], q: u64) -> usize
    requires { Rising t.now }
    ensures { (result ≡ rank q t.now) × (result ≤ length t.now) }
{
    t.partition_point(|x| key(*x) < q)
}

// The value of key q, if it has one.
pub fn look(t: &[u64], q: u64) -> Option<u64>
    requires { Rising t.now }
    ensures { (result ≡ option_of (look_in q t.now)) × IfSome result (λ v. v < 256) }
{
    let x = *t.get(rank(t, q))?;
    if key(x) == q { Some(value(x)) } else { None }
}

// Is there an entry with key q?
pub fn contains(t: &[u64], q: u64) -> bool
    requires { Rising t.now }
    ensures { result ≡ is_some (look_in q t.now) }
{
    look(t, q).is_some()
}

// The entry x goes into its place among the first n, over one with its key if there is one. The count afterwards. The table is told by
// its count, since there is room behind it for one more.
pub fn put(t: &mut [u64], n: usize, x: u64) -> usize
    requires { (n < length t.old) × Rising (take n t.old) }
    ensures { Put x n t.old result t.new }
{
    let q = key(x);
    let at = rank(&t[..n], q);
    if at < n && key(t[at]) == q {
        t[at] = x;
        return n;
    }
    t.copy_within(at..n, at + 1);
    t[at] = x;
    n + 1
}

// The value of key q where no key is above it, so that only the last can be it.
#[tactic(auto, using(crate::specs::Last::last_has, crate::specs::Last::last_other, crate::specs::Last::last_empty))]
pub fn look_last(t: &[u64], q: u64) -> Option<u64>
    requires { Rising t.now × NoneAbove q t.now }
    ensures { MatchOption result (look_in q t.now ≡ none) (λ v. (look_in q t.now ≡ some v) × (v < 256)) }
{
    let x = *t.last()?;
    if key(x) == q { Some(value(x)) } else { None }
}

// The entry x put in where no key is above its own: behind the last, or over it. Nothing moves. The count afterwards.
#[tactic(auto, using(crate::specs::Last::put_end, crate::specs::Last::put_over_last))]
pub fn put_last(t: &mut [u64], n: usize, x: u64) -> usize
    requires { (n < length t.old) × (Rising (take n t.old) × NoneAbove (key_of x) (take n t.old)) }
    ensures { Put x n t.old result t.new }
{
    if n > 0 && key(t[n - 1]) == key(x) {
        t[n - 1] = x;
        return n;
    }
    t[n] = x;
    n + 1
}
