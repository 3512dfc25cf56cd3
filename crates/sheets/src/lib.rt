// The working form of a sheet: one slice of numbers with five counts in front (model number, place, elements created, keys,
// facts), then keys, room for pairs, facts, depths, and what each element is now. Loaded from a slot's bytes, and stored.
#![tactic(auto)]

ghost use Rattle.std.specs.Prelude.{◌≡◌, ◌≤◌, min, length};
ghost use Rattle.base.specs.Lists.{from};
ghost use Rattle.limits.specs.Limits.{limits_of, form_size, slot_size};
ghost use Rattle.sheets.specs.Load.{Counted, Loaded};

use limits::{Limits, SLOT_KEYS};
use octets::{load_bytes, load_words};
use words::num16;

// A count, or the limit if that is less.
fn within(n: u64, limit: usize) -> usize
    ensures { (result ≡ min n limit) × (result ≤ limit) }
{
    n.min(limit as u64) as usize
}

// Each element is itself.
fn set_history(t: &mut [u64])
    ensures { t.new ≡ from 0 (length t.old) }
{
    for (i, e) in t.iter_mut().enumerate() {
        *e = i as u64;
    }
}

// How much of each region a sheet uses.
#[derive(Clone, Copy)]
pub struct Counts {
    pub created: usize,
    pub keys: usize,
    pub facts: usize,
}

// The counts of a slot into the working form.
fn load_counts(slot: &[u8], w: &mut [u64], limits: Limits) -> Counts
    requires { 5 ≤ length w.old }
    ensures { Counted (limits_of limits) slot.now result.created result.keys result.facts w.old w.new }
{
    let created = within(num16(slot, 4), limits.elements);
    let keys = within(num16(slot, 6), limits.keys);
    let facts = within(num16(slot, 8), limits.facts);
    w[..5].copy_from_slice(&[
        num16(slot, 0),
        num16(slot, 2),
        created as u64,
        keys as u64,
        facts as u64,
    ]);
    Counts {
        created,
        keys,
        facts,
    }
}

// A slot's bytes into the working form.
pub fn load_sheet(slot: &[u8], w: &mut [u64], limits: Limits)
    requires { (slot_size (limits_of limits) ≤ length slot.now) × (length w.old ≡ form_size (limits_of limits)) }
    ensures { Loaded (limits_of limits) slot.now w.new }
{
    let counts = load_counts(slot, w, limits);
    let f = limits.facts_at();
    let d = limits.depths_at();
    let h = limits.history_at();
    load_words(slot, SLOT_KEYS, &mut w[5..5 + counts.keys]);
    load_words(slot, limits.slot_facts_at(), &mut w[f..f + counts.facts]);
    load_bytes(slot, limits.slot_depths_at(), &mut w[d..d + counts.created]);
    set_history(&mut w[h..h + limits.elements]);
}
