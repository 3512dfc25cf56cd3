// adopting: what a step writes into a pool's slots and lists. The base's slot is freed, all zero, and no list names it any more; a
// child is stored in a slot, which joins the waiting or the bounded ones.
#![tactic(auto)]

ghost use Rattle.std.specs.Prelude.{◌+◌, ◌*◌, ◌≤◌, length};
ghost use Rattle.limits.specs.Limits.{limits_of, slot_at, slot_size};
ghost use Rattle.sheets.specs.Form.{Formed};
ghost use Rattle.adopting.specs.Slots.{Freed, Adopted};

use heads::{Pool, clear_slot};
use limits::Limits;
use lists::{forget, join};
use poolparts::next_number;
use slots::put_sheet;

// The first waiting sheet, in slot i, is given up.
pub fn free_base(pool: &mut [u8], i: usize, limits: Limits)
    requires { slot_at (limits_of limits) i + slot_size (limits_of limits) ≤ length pool.old }
    ensures { Freed (limits_of limits) i pool.old pool.new }
{
    clear_slot(pool, i, limits);
    forget(&mut Pool { bytes: pool });
}

// The child in a working form goes into slot i with the next number and a place, open or bounded.
pub fn place_child(pool: &mut [u8], i: usize, cut: bool, place: u64, w: &mut [u64], limits: Limits)
    requires { Formed (limits_of limits) w.old × (slot_at (limits_of limits) i + slot_size (limits_of limits) ≤ length pool.old) }
    ensures { Adopted (limits_of limits) i cut place w.old pool.old pool.new }
{
    w[0] = next_number(pool);
    w[1] = place;
    put_sheet(pool, i, w, limits);
    join(&mut Pool { bytes: pool }, i as u64, cut);
}
