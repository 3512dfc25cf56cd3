// pages: a sheet's lines off its slot, and the whole listing off a pool, written on a page. Slots are read in place (docs/FORMAT.md).
// Readers are total, so any bytes are taken: what is written is the text of what the bytes say.
#![tactic(auto)]

ghost use Rattle.std.specs.Prelude.{◌≡◌, ◌+◌, ◌*◌, ◌≤◌, ◌<◌, min, map, length, get_or, slice_index, take, drop};
ghost use Rattle.base.specs.Lists.{mem};
ghost use Rattle.rules.specs.Reading.{num};
ghost use Rattle.rules.specs.Sheet.{limits};
ghost use Rattle.rules.specs.Image.{parts, sheet_in, pool_in};
ghost use Rattle.settings.specs.Numbers.{number_of};
ghost use Rattle.lines.specs.Text.{model_lines, sheet_lines, listing};
ghost use Rattle.lines.specs.Writes.{Writes};
ghost use Rattle.pages.specs.Tables.{slots_text, stop_line, waiting_line};

use limits::{HEAD, LIMITS, SLOT, SLOT_KEYS};
use lines::{DEPTH_LINE, ENTRY, FACT_LINE, FIELD, KEY_LINE, Page, WIDE_FIELD};
use settings::{MOST_LISTED, SlotList};
use words::{byte, num16};

// The limits of a sheet.
const ELEMENTS: usize = LIMITS.elements;

const KEYS: usize = LIMITS.keys;

const FACTS: usize = LIMITS.facts;

// The most bytes that a sheet takes, the first line and the last.
const MODEL_LINES: usize = KEY_LINE * KEYS + DEPTH_LINE * ELEMENTS + FACT_LINE * FACTS;

pub const SHEET_LINES: usize = 9 + WIDE_FIELD + MODEL_LINES;

const STOP_LINE: usize = 11 + 2 * WIDE_FIELD;

const WAITING_LINE: usize = 8 + FIELD;

pub const OTHER_LINES: usize = STOP_LINE + WAITING_LINE;

// The count at a place, as far as there is room.
fn counted(s: &[u8], at: usize, most: usize) -> usize
    ensures { result ≡ min (num s.now at) most }
{
    (num16(s, at) as usize).min(most)
}

// The first so many entries of the table at a place.
fn entries(s: &[u8], table: usize, count: usize) -> &[[u8; ENTRY]]
    requires { (length s.now ≡ SLOT) × (table + ENTRY * count ≤ SLOT) }
    ensures value { result.now ≡ parts ENTRY count (drop table s.now) }
    ensures many { length result.now ≡ count }
{
    let (entries, _) = s[table..].as_chunks();
    &entries[..count]
}

// Does one of some keys yield the element?
fn yielded(keys: &[[u8; ENTRY]], element: u8) -> bool
    ensures { result ≡ mem element (map (λ key. slice_index key 7) keys.now) }
{
    keys.iter().any(|key| key[7] == element)
}

// What the sheet of a slot says: keys, the depths of the elements that they yield, facts.
pub fn model_lines(s: &[u8], page: &mut Page<'_>)
    requires { (length s.now ≡ SLOT) × (page.old.end + MODEL_LINES ≤ length page.old.out.now) }
    ensures text { Writes page.old (model_lines (sheet_in limits s.now).model) page.new }
    ensures short { page.new.end ≤ page.old.end + MODEL_LINES }
{
    let keys = entries(s, SLOT_KEYS, counted(s, 6, KEYS));
    let facts = entries(s, LIMITS.slot_facts_at(), counted(s, 8, FACTS));
    let elements = counted(s, 4, ELEMENTS);
    let depths_at = LIMITS.slot_depths_at();
    for key in keys {
        page.key_line(key);
    }
    for e in 0..elements {
        if yielded(keys, e as u8) {
            page.depth_line(e as u64, s[depths_at + e] as u64);
        }
    }
    for fact in facts {
        page.fact_line(fact);
    }
}

// A sheet: its standing and model number, then what it says.
pub fn sheet_lines(standing: &[u8], s: &[u8], page: &mut Page<'_>)
    requires { (length standing.now ≤ 8) × (length s.now ≡ SLOT) × (page.old.end + SHEET_LINES ≤ length page.old.out.now) }
    ensures text { Writes page.old (sheet_lines standing.now (sheet_in limits s.now)) page.new }
    ensures short { page.new.end ≤ page.old.end + SHEET_LINES }
{
    page.word(standing);
    page.field::<10>(num16(s, 0));
    page.word(b"\n");
    model_lines(s, page);
}

// The slots that a list names, as far as there is room.
fn named(pool: &[u8], list: SlotList) -> &[u8]
    requires { HEAD ≤ length pool.now }
    ensures value { result.now ≡ take (min (get_or pool.now (12 + number_of list) 0) MOST_LISTED) (drop (16 + 64 * number_of list) pool.now) }
    ensures few { length result.now ≡ min (get_or pool.now (12 + number_of list) 0) MOST_LISTED }
{
    let start = list.starts_at();
    let end = start + (byte(pool, list.counted_at()) as usize).min(MOST_LISTED);
    &pool[start..end]
}

// The sheets that a list names, in its order; behind the last slot stands the blank one.
fn list_lines(standing: &[u8], pool: &[u8], list: &[u8], page: &mut Page<'_>)
    requires { (length standing.now ≤ 8) × (HEAD ≤ length pool.now) × (page.old.end + SHEET_LINES * length list.now ≤ length page.old.out.now) }
    ensures text { Writes page.old (slots_text standing.now pool.now list.now) page.new }
    ensures short { page.new.end ≤ page.old.end + SHEET_LINES * length list.now }
{
    let (slots, _) = pool[HEAD..].as_chunks();
    for i in list {
        let slot = slots.get(*i as usize).unwrap_or(&[0; SLOT]);
        sheet_lines(standing, slot, page);
    }
}

// The first line: stop and steps.
fn stop_line(stop: u32, steps: u32, page: &mut Page<'_>)
    requires { page.old.end + STOP_LINE ≤ length page.old.out.now }
    ensures text { Writes page.old (stop_line stop steps) page.new }
    ensures short { page.new.end ≤ page.old.end + STOP_LINE }
{
    page.word(b"stop");
    page.field::<10>(stop as u64);
    page.word(b" steps");
    page.field::<10>(steps as u64);
    page.word(b"\n");
}

// The last line: how many wait.
fn waiting_line(waiting: usize, page: &mut Page<'_>)
    requires { (waiting ≤ MOST_LISTED) × (page.old.end + WAITING_LINE ≤ length page.old.out.now) }
    ensures text { Writes page.old (waiting_line waiting) page.new }
    ensures short { page.new.end ≤ page.old.end + WAITING_LINE }
{
    page.word(b"waiting");
    page.field::<3>(waiting as u64);
    page.word(b"\n");
}

// The whole listing of a pool, behind a run's answer.
#[tactic(auto, using(crate::specs::Pools::complete_long, crate::specs::Pools::bounded_long))]
pub fn listing(pool: &[u8], stop: u32, steps: u32, page: &mut Page<'_>)
    requires { (HEAD ≤ length pool.now) × (page.old.end + SHEET_LINES * (length (pool_in limits pool.now).complete + length (pool_in limits pool.now).bounded) + OTHER_LINES ≤ length page.old.out.now) }
    ensures { Writes page.old (listing stop steps (pool_in limits pool.now)) page.new }
{
    let complete = named(pool, SlotList::Complete);
    let bounded = named(pool, SlotList::Bounded);
    let waiting = named(pool, SlotList::Waiting);
    stop_line(stop, steps, page);
    list_lines(b"complete", pool, complete, page);
    list_lines(b"bounded", pool, bounded, page);
    waiting_line(waiting.len(), page);
}
