// One element renamed in a table of packed entries that is in order, so that it is in order again: at one place after another,
// the entries that change are set apart, which keep their order among themselves, and brought back among those that stay.
// A place costs two moves for each entry at most. What a spare slice holds afterwards is of no use.
#![tactic(auto)]

ghost use Rattle.std.specs.Prelude.{◌≡◌, map, ◌-◌, ◌≤◌, ◌<◌, ◌++◌, length};
ghost use Rattle.packing.specs.Replace.{replaced};
ghost use Rattle.renaming.specs.Order.{Sorted, order_in};
ghost use Rattle.renaming.specs.Place.{replaced_at};
ghost use Rattle.renaming.specs.Parting.{Parted};
ghost use Rattle.renaming.specs.Bringing.{last_of, Stayed};

use packing::Replacement;

// The weights of the places: those of the four arguments, and that of the value.
const WEIGHTS: [u64; 5] = [4294967296, 16777216, 65536, 256, 1];

// The entry with the replacement made at the place of weight p.
#[tactic(auto, using(crate::specs::Place::place_fits, crate::specs::Place::at_there, crate::specs::Place::at_other))]
fn replace_at(x: u64, p: u64, r: Replacement) -> u64
    requires { (0 < p) × (r.stays ≤ r.goes) }
    ensures { result ≡ replaced_at p r.stays r.goes x }
{
    if x / p % 256 == r.goes {
        return x - (r.goes - r.stays) * p;
    }
    x
}

// The entries that change go to the spare slice, changed, and the others close up. How many went.
fn set_apart(table: &mut [u64], spare: &mut [u64], p: u64, r: Replacement) -> usize
    requires { (length table.old ≤ length spare.old) × ((0 < p) × (r.stays ≤ r.goes)) }
    ensures { Parted (replaced_at p r.stays r.goes) table.old result table.new spare.new }
{
    let mut gone = 0;
    for i in 0..table.len() {
        let x = table[i];
        let y = replace_at(x, p, r);
        if y < x {
            spare[gone] = y;
            gone += 1;
        } else {
            table[i - gone] = x;
        }
    }
    gone
}

// The entry before place i; before the first, 0.
#[tactic(auto, using(crate::specs::Bringing::last_none, crate::specs::Bringing::last_some))]
fn last_of(t: &[u64], i: usize) -> u64
    requires { i ≤ length t.now }
    ensures { result ≡ last_of t.now i }
{
    if i == 0 { 0 } else { t[i - 1] }
}

// The entries that went come back, the greatest of all that are left first, to the end of the table. By two cursors, which both go
// down.
fn bring_back(table: &mut [u64], went: &[u64])
    requires { (length went.now ≤ length table.old) × (Sorted (Stayed table.old (length went.now)) × Sorted went.now) }
    ensures { table.new ≡ order_in (Stayed table.old (length went.now) ++ went.now) }
{
    let mut i = table.len() - went.len();
    let mut j = went.len();
    // A `while`: each turn one of the two goes down, and which does is not known before.
    while 0 < j {
        let x = went[j - 1];
        let y = last_of(table, i);
        if x < y {
            i -= 1;
            table[i + j] = y;
        } else {
            j -= 1;
            table[i + j] = x;
        }
    }
}

// At the place of weight p, in the whole table.
fn rename_place(table: &mut [u64], spare: &mut [u64], p: u64, r: Replacement)
    requires { (length table.old ≤ length spare.old) × ((0 < p) × ((r.stays ≤ r.goes) × Sorted table.old)) }
    ensures { table.new ≡ order_in (map (replaced_at p r.stays r.goes) table.old) }
{
    let gone = set_apart(table, spare, p, r);
    bring_back(table, &spare[..gone]);
}

// At the places of the four arguments and of the value, with a spare slice that is as long.
pub fn rename_table(table: &mut [u64], spare: &mut [u64], r: Replacement)
    requires { (length table.old ≤ length spare.old) × ((r.stays < r.goes) × Sorted table.old) }
    ensures { table.new ≡ order_in (map (replaced r.stays r.goes) table.old) }
{
    for p in &WEIGHTS {
        rename_place(table, spare, *p, r);
    }
}
