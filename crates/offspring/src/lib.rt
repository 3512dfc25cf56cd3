// offspring: the children of a sequent that fired are stored. Each is made over a copy of the base and goes into the lowest slot
// that is free then.
#![tactic(auto)]

ghost use Rattle.std.specs.Prelude.{◌≡◌, ◌+◌, ◌*◌, ◌≤◌, length, take};
ghost use Rattle.bound.specs.Bounds.{bound_is};
ghost use Rattle.limits.specs.Limits.{limits_of, slot_at};
ghost use Rattle.firing.specs.Answers.{Elements};
ghost use Rattle.children.specs.Lent.{HasRoom, SameLent};
ghost use Rattle.offspring.specs.One.{PlacedOne};
ghost use Rattle.offspring.specs.All.{PlacedAll};

use adopting::place_child;
use children::{Branching, Scratch, derive};
use lists::lowest_free;
use nodes::Text;
use skips::skip_disjunct;

// The child of the disjunct at a place, into the lowest free of so many slots. One that is too large is not stored: it is asked for only
// where each of them fits.
fn place_one(
    p: &Branching<'_>,
    at: usize,
    place: u64,
    m: &mut Scratch<'_>,
    pool: &mut [u8],
    slots: usize,
)
    requires { ((at ≤ length p.now.book.now) × Elements m.old.env.now p.now.chosen × HasRoom p.now.limits.keys p.now.base.now m.old) × (slot_at (limits_of p.now.limits) slots ≤ length pool.old) }
    ensures lent { SameLent m.old m.new }
    ensures env_unchanged { take p.now.chosen m.new.env.now ≡ take p.now.chosen m.old.env.now }
    ensures placed_one { PlacedOne p.now.book.now at p.now.chosen (bound_is p.now.bound) (limits_of p.now.limits) place m.old.env.now p.now.base.now slots pool.old pool.new }
{
    let Ok(cut) = derive(p, at, m) else {
        return;
    };
    if let Some(i) = lowest_free(pool, slots) {
        place_child(pool, i, cut, place, m.form, p.limits);
    }
}

// The children of n disjuncts from a place on.
pub fn place_children(
    p: &Branching<'_>,
    at: usize,
    n: u64,
    place: u64,
    m: &mut Scratch<'_>,
    pool: &mut [u8],
    slots: usize,
)
    requires { ((at ≤ length p.now.book.now) × Elements m.old.env.now p.now.chosen × HasRoom p.now.limits.keys p.now.base.now m.old) × (slot_at (limits_of p.now.limits) slots ≤ length pool.old) }
    ensures lent { SameLent m.old m.new }
    ensures placed_all { PlacedAll p.now.book.now at n p.now.chosen (bound_is p.now.bound) (limits_of p.now.limits) place m.old.env.now p.now.base.now slots pool.old pool.new }
{
    let book = p.book;
    let text = Text { book, bytes: book };
    let mut q = at;
    for _ in 0..n {
        place_one(p, q, place, m, pool, slots);
        q = skip_disjunct(&text, q);
    }
}
