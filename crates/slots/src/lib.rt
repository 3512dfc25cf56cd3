// A slot's bytes from the working form of a sheet, in the slot and in the pool that the slot stands in, and back.
#![tactic(auto)]

ghost use Rattle.std.specs.Prelude.{◌≡◌, ◌+◌, ◌≤◌, map, length};
ghost use Rattle.base.specs.Lists.{flat};
ghost use Rattle.rules.specs.Image.{word, padded, part};
ghost use Rattle.octets.specs.Patch.{patched};
ghost use Rattle.limits.specs.Limits.{limits_of, form_size, slot_at, slot_size};
ghost use Rattle.sheets.specs.Form.{Formed, view_of};
ghost use Rattle.sheets.specs.Load.{Loaded};
ghost use Rattle.slots.specs.Store.{view_bytes};

use limits::{Limits, SLOT_KEYS};
use octets::{store_bytes, store_words};
use sheets::load_sheet;

// The first sixteen bytes: the two low bytes of each count, the lowest first, and zeros.
fn store_head(s: &mut [u8], counts: &[u64])
    requires { (16 ≤ length s.old) × (length counts.now ≤ 8) }
    ensures { s.new ≡ patched 0 (padded 16 (flat (map word counts.now))) s.old }
{
    for (i, x) in counts.iter().enumerate() {
        s[2 * i..2 * i + 2].copy_from_slice(&x.to_le_bytes()[..2]);
    }
    s[2 * counts.len()..SLOT_KEYS].fill(0);
}

// The working form into a slot's bytes, all of them.
pub fn store_sheet(w: &[u64], slot: &mut [u8], limits: Limits)
    requires { Formed (limits_of limits) w.now × (length slot.old ≡ slot_size (limits_of limits)) }
    ensures { slot.new ≡ view_bytes (limits_of limits) (view_of (limits_of limits) w.now) }
{
    let f = limits.facts_at();
    let d = limits.depths_at();
    let keys = &w[5..5 + w[3] as usize];
    let facts = &w[f..f + w[4] as usize];
    let depths = &w[d..d + w[2] as usize];
    store_head(slot, &w[..5]);
    store_words(slot, SLOT_KEYS, limits.keys, keys);
    store_words(slot, limits.slot_facts_at(), limits.facts, facts);
    store_bytes(slot, limits.slot_depths_at(), limits.elements, depths);
}

// The working form into slot i of a pool.
pub fn put_sheet(pool: &mut [u8], i: usize, w: &[u64], limits: Limits)
    requires { Formed (limits_of limits) w.now × (slot_at (limits_of limits) i + slot_size (limits_of limits) ≤ length pool.old) }
    ensures { pool.new ≡ patched (slot_at (limits_of limits) i) (view_bytes (limits_of limits) (view_of (limits_of limits) w.now)) pool.old }
{
    let a = limits.slot_at(i);
    store_sheet(w, &mut pool[a..a + limits.slot_size()], limits);
}

// Slot i of a pool into the working form.
pub fn get_sheet(pool: &[u8], i: usize, w: &mut [u64], limits: Limits)
    requires { (slot_at (limits_of limits) i + slot_size (limits_of limits) ≤ length pool.now) × (length w.old ≡ form_size (limits_of limits)) }
    ensures { Loaded (limits_of limits) (part (slot_at (limits_of limits) i) (slot_size (limits_of limits)) pool.now) w.new }
{
    let a = limits.slot_at(i);
    load_sheet(&pool[a..a + limits.slot_size()], w, limits);
}
