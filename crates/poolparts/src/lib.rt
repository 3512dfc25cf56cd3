// poolparts: the clauses of a pool's soundness as tests on its bytes: mark and settings, lists, slots, numbers. Readers are total;
// what a sheet says is tested by sheetcheck.
#![tactic(auto)]

ghost use Rattle.std.specs.Prelude.{◌≡◌, ◌+◌, ◌*◌, ◌≤◌, ◌<◌, length};
ghost use Rattle.rules.specs.Reading.{num};
ghost use Rattle.rules.specs.Fire.{places};
ghost use Rattle.settings.specs.Codes.{strategy_is};
ghost use Rattle.settings.specs.Numbers.{number_of};
ghost use Rattle.pools.specs.Count.{cnt};
ghost use Rattle.texts.specs.Names.{names_in, count_at};
ghost use Rattle.sheetparts.specs.Tests.{byte_at};
ghost use Rattle.poolparts.specs.Tests.{mark_number, list_room, in_range, list_right, next_of, lists_right, frame_right, row_at, listed, other_at, differs, held_right, slot_right, slots_right, start_of};

use counts::sequent_count;
use limits::{LIMITS, SLOT};
use settings::{MOST_LISTED, SlotList, Strategy};
use sheetcheck::sheet_sound;
use sheetparts::zeros;
use words::{byte, num16, num32};

// ---- the head

// The mark `MDL` and version 1, as four bytes that are read as a number.
const MARK: u64 = b'M' as u64 + 256 * b'D' as u64 + 65536 * b'L' as u64 + 16777216;

// Mark, version and the two unused bytes as one number.
#[tactic(auto, unfolding(crate::specs::Tests::mark_number))]
fn mark_number(p: &[u8]) -> u64
    ensures { result ≡ mark_number p.now }
{
    let low = byte(p, 0) + 256 * byte(p, 1) + 65536 * byte(p, 2) + 16777216 * byte(p, 3);
    low + 4294967296 * byte(p, 4) + 1099511627776 * byte(p, 7) + 281474976710656 * byte(p, 15)
}

// The next model number.
#[tactic(auto, unfolding(crate::specs::Tests::next_of))]
pub fn next_number(p: &[u8]) -> u64
    ensures { (result ≡ next_of p.now) × (result < 4294967296) }
{
    num32(p, 8)
}

// At most 64 of a list, and zeros behind them. It stands at a place and is n long, and no slice: a place past the end reads as 0.
#[tactic(auto, unfolding(crate::specs::Tests::list_room))]
fn list_room(p: &[u8], at: usize, n: usize) -> bool
    requires { at < 65536 }
    ensures { result ≡ list_room p.now at n }
{
    n <= MOST_LISTED && zeros(p, at + n, MOST_LISTED - n)
}

// All of a list are slots.
fn in_range(p: &[u8], slots: usize, at: usize, n: usize) -> bool
    requires { (at < 65536) × (n < 65536) }
    ensures { result ≡ in_range p.now slots at n }
{
    (0..n).all(|j| (byte(p, at + j) as usize) < slots)
}

// How many slots a list counts.
pub fn counted(p: &[u8], list: SlotList) -> usize
    ensures { (result ≡ byte_at p.now (12 + number_of list)) × (result < 256) }
{
    byte(p, list.counted_at()) as usize
}

#[tactic(auto, unfolding(crate::specs::Tests::list_right))]
fn list_right(p: &[u8], slots: usize, list: SlotList) -> bool
    ensures { result ≡ list_right p.now slots (16 + 64 * number_of list) (byte_at p.now (12 + number_of list)) }
{
    let at = list.starts_at();
    let n = counted(p, list);
    list_room(p, at, n) && in_range(p, slots, at, n)
}

// Mark, version, settings, next number and lists.
#[tactic(auto, unfolding(crate::specs::Tests::frame_right))]
pub fn frame_right(p: &[u8], slots: usize) -> bool
    ensures { result ≡ frame_right p.now slots }
{
    mark_number(p) == MARK
        && byte(p, 5) < 2
        && byte(p, 6) < 2
        && next_number(p) <= 65536
        && lists_right(p, slots)
}

// The three lists.
#[tactic(auto, unfolding(crate::specs::Tests::lists_right))]
fn lists_right(p: &[u8], slots: usize) -> bool
    ensures { result ≡ lists_right p.now slots }
{
    list_right(p, slots, SlotList::Waiting)
        && list_right(p, slots, SlotList::Complete)
        && list_right(p, slots, SlotList::Bounded)
}

// ---- the slots

// How often a list names a slot.
fn times(p: &[u8], list: SlotList, i: usize) -> u64
    ensures { (result ≡ cnt i (row_at p.now (16 + 64 * number_of list) (byte_at p.now (12 + number_of list)))) × (result < 256) }
{
    let at = list.starts_at();
    (0..counted(p, list))
        .filter(|j| byte(p, at + *j) as usize == i)
        .count() as u64
}

// How often the lists name a slot.
#[tactic(auto, unfolding(crate::specs::Tests::listed))]
fn listed(p: &[u8], i: usize) -> u64
    ensures { result ≡ listed p.now i }
{
    let w = times(p, SlotList::Waiting, i);
    let c = times(p, SlotList::Complete, i);
    let b = times(p, SlotList::Bounded, i);
    w + (c + b)
}

// A slot before it that has its number is free.
#[tactic(auto, unfolding(crate::specs::Tests::other_at))]
fn other(p: &[u8], i: usize, j: usize) -> bool
    requires { (i < 65536) × (j < 65536) }
    ensures { result ≡ other_at p.now i j }
{
    num16(p, LIMITS.slot_at(j)) != num16(p, LIMITS.slot_at(i)) || listed(p, j) == 0
}

// No listed slot before it has its number.
fn differs(p: &[u8], i: usize) -> bool
    requires { i < 65536 }
    ensures { result ≡ differs p.now i }
{
    (0..i).all(|j| other(p, i, j))
}

// A listed slot: its number is below the next and its own, its sheet is sound.
#[tactic(auto, unfolding(crate::specs::Tests::held_right))]
fn held_right(book: &[u8], places: u64, p: &[u8], i: usize) -> bool
    requires { (i < 64) × (start_of i + 2128 ≤ length p.now) }
    ensures { result ≡ held_right (names_in book.now) places p.now i }
{
    let a = LIMITS.slot_at(i);
    num16(p, a) < next_number(p)
        && differs(p, i)
        && sheet_sound(book, &p[a..a + SLOT], places, LIMITS)
}

// A slot that no list names is all zero; no slot is named twice.
fn slot_right(book: &[u8], places: u64, p: &[u8], i: usize) -> bool
    requires { (i < 64) × (start_of i + 2128 ≤ length p.now) }
    ensures { result ≡ slot_right (names_in book.now) places p.now i }
{
    match listed(p, i) {
        0 => zeros(p, LIMITS.slot_at(i), SLOT),
        1 => held_right(book, places, p, i),
        _ => false,
    }
}

pub fn slots_right(book: &[u8], places: u64, p: &[u8], n: usize) -> bool
    requires { (n ≤ 64) × (start_of n ≤ length p.now) }
    ensures { result ≡ slots_right (names_in book.now) places p.now n }
{
    (0..n).all(|i| slot_right(book, places, p, i))
}

// How many places a strategy has over a book.
pub fn places(book: &[u8], strategy: Strategy) -> u64
    ensures { result ≡ places (strategy_is strategy) (num book.now (count_at book.now)) }
{
    match strategy {
        Strategy::Linear => 1,
        Strategy::Fair => sequent_count(book).max(1),
    }
}
