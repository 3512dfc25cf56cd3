// poolcheck: is a pool sound for a book (refusal 13)? The tests of poolparts one after the other, on any bytes of an accepted length,
// proved to say what the definition says for every accepted book.
#![tactic(auto)]

ghost use Rattle.std.specs.Prelude.{length, T};
ghost use Rattle.rules.specs.Calls.{right_length};
ghost use Rattle.poolcheck.specs.Books.{PoolSound};

use limits::{HEAD, SLOT};
use poolparts::{frame_right, places, slots_right};
use settings::Strategy;
use words::byte;

pub fn pool_sound(book: &[u8], pool: &[u8]) -> bool
    requires { T (right_length (length pool.now)) }
    ensures { PoolSound book.now pool.now result }
{
    let n = (pool.len() - HEAD) / SLOT;
    let strategy = Strategy::of_byte(byte(pool, 6));
    frame_right(pool, n) && slots_right(book, places(book, strategy), pool, n)
}
