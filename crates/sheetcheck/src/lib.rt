// sheetcheck: is a slot a sound sheet for a book's names, and is a lone sheet sound for a book? The tests of sheetparts one after the
// other, proved to say what the definitions say: the bytes are the image of what they say, and that is sound.
#![tactic(auto)]

ghost use Rattle.std.specs.Prelude.{◌≡◌, length};
ghost use Rattle.rules.specs.Image.{sheet_size};
ghost use Rattle.texts.specs.Names.{names_in};
ghost use Rattle.limits.specs.Limits.{limits_of};
ghost use Rattle.sheetparts.specs.Tests.{sheet_sound, Fair};
ghost use Rattle.sheetcheck.specs.Lone.{LoneSound};

use counts::sequent_count;
use limits::{Limits, SLOT_KEYS};
use sheetparts::{body_right, fill, head_right, room_right};
use words::num16;

// A sheet with so many places: its bytes are the image of what they say, and that is sound for the book's names.
pub fn sheet_sound(book: &[u8], slot: &[u8], places: u64, limits: Limits) -> bool
    requires { Fair (limits_of limits) × (length slot.now ≡ sheet_size (limits_of limits)) }
    ensures { result ≡ sheet_sound (limits_of limits) (names_in book.now) places slot.now }
{
    if !head_right(slot, places, limits) || !room_right(slot, limits) {
        return false;
    }
    let keys = num16(slot, 6) as usize;
    let mut t = [None; 256];
    fill(slot, limits.slot_depths_at(), SLOT_KEYS, keys, &mut t);
    body_right(book, &t, slot, limits)
}

// A lone sheet for a book: sound by the parts about itself, its place 0 or below the sequent count.
pub fn lone_sound(book: &[u8], slot: &[u8], limits: Limits) -> bool
    requires { Fair (limits_of limits) × (length slot.now ≡ sheet_size (limits_of limits)) }
    ensures { LoneSound (limits_of limits) book.now slot.now result }
{
    sheet_sound(book, slot, sequent_count(book).max(1), limits)
}
