// skips: the place behind what stands at a place of a text: terms, literals, origins, disjuncts, sequents. Each answer is within
// the text whatever it holds, and the end of the thing if one stands there. What follows one another is walked over by one function,
// which is handed the walk over one of them.
#![tactic(auto)]

ghost use Rattle.std.specs.Prelude.{◌≡◌, ℕ, ◌+◌, ◌≤◌, ◌<◌, length};
ghost use Rattle.texts.specs.Names.{names_in};
ghost use Rattle.texts.specs.Text.{LiteralText, OriginText, DisjunctText, SequentText};
ghost use Rattle.skips.specs.Rest.{Within, Skips, SkipsMany, Gives, Chain};
ghost use Rattle.skips.specs.Terms.{below_at, SkipsTerms};

use counts::function_arity;
use nodes::{Claim, Text, claim_at};
use words::num16;

// How many terms stand directly below the one at a place.
fn below(s: &Text<'_>, at: usize) -> u64
    requires { at + 4 ≤ length s.now.bytes.now }
    ensures { (result ≡ below_at (names_in s.now.book.now) s.now.bytes.now at) × (result < 65536) }
{
    if num16(s.bytes, at) == 2 {
        return function_arity(s.book, num16(s.bytes, at + 2));
    }
    0
}

// So many things that follow one another in a text, each walked over by `one`, which stays within the text.
fn skip_many<F: Fn(&Text<'_>, usize) -> usize>(s: &Text<'_>, at: usize, n: u64, one: F) -> usize
    requires start { at ≤ length s.now.bytes.now }
    requires callable { (p : ℕ) → p ≤ length s.now.bytes.now → F.pre one s p }
    requires stays { (p q : ℕ) → p ≤ length s.now.bytes.now → F.post one s p q → Within p (length s.now.bytes.now) q }
    ensures within { Within at (length s.now.bytes.now) result }
    ensures chained { Chain (Gives (F.post one) s.now) (length s.now.bytes.now) n at result }
{
    let mut p = at;
    for _ in 0..n {
        p = one(s, p);
    }
    p
}

// So many terms. A `while`: those still to come are counted, and each term adds those below it. The text is too short where it has
// not four bytes for each of them.
pub fn skip_terms(s: &Text<'_>, at: usize, n: u64) -> usize
    requires { at ≤ length s.now.bytes.now }
    ensures { Within at (length s.now.bytes.now) result × SkipsTerms (names_in s.now.book.now) s.now.bytes.now at n result }
{
    let mut left = n;
    let mut p = at;
    while left > 0 {
        if (((s.bytes.len() - p) / 4) as u64) < left {
            return s.bytes.len();
        }
        left = left - 1 + below(s, p);
        p += 4;
    }
    p
}

pub fn skip_literal(s: &Text<'_>, at: usize) -> usize
    requires { at ≤ length s.now.bytes.now }
    ensures { Within at (length s.now.bytes.now) result × Skips (LiteralText (names_in s.now.book.now) s.now.bytes.now) (length s.now.bytes.now) at result }
{
    match claim_at(s, at) {
        None => s.bytes.len(),
        Some(Claim::Fact(_, n)) => skip_terms(s, at + 4, n),
        Some(Claim::Same) => skip_terms(s, at + 2, 2),
    }
}

pub fn skip_literals(s: &Text<'_>, at: usize, n: u64) -> usize
    requires { at ≤ length s.now.bytes.now }
    ensures { Within at (length s.now.bytes.now) result × SkipsMany (LiteralText (names_in s.now.book.now) s.now.bytes.now) (length s.now.bytes.now) at n result }
{
    skip_many(s, at, n, skip_literal)
}

pub fn skip_origin(s: &Text<'_>, at: usize) -> usize
    requires { at ≤ length s.now.bytes.now }
    ensures { Within at (length s.now.bytes.now) result × Skips (OriginText (names_in s.now.book.now) s.now.bytes.now) (length s.now.bytes.now) at result }
{
    let e = at + 6 + 2 * (num16(s.bytes, at + 4) as usize);
    e.min(s.bytes.len())
}

pub fn skip_origins(s: &Text<'_>, at: usize, n: u64) -> usize
    requires { at ≤ length s.now.bytes.now }
    ensures { Within at (length s.now.bytes.now) result × SkipsMany (OriginText (names_in s.now.book.now) s.now.bytes.now) (length s.now.bytes.now) at n result }
{
    skip_many(s, at, n, skip_origin)
}

// Origins and literals, each behind their count.
pub fn skip_disjunct(s: &Text<'_>, at: usize) -> usize
    requires { at ≤ length s.now.bytes.now }
    ensures { Within at (length s.now.bytes.now) result × Skips (DisjunctText (names_in s.now.book.now) s.now.bytes.now) (length s.now.bytes.now) at result }
{
    if s.bytes.len() - at < 2 {
        return s.bytes.len();
    }
    let middle = skip_origins(s, at + 2, num16(s.bytes, at));
    if s.bytes.len() - middle < 2 {
        return s.bytes.len();
    }
    skip_literals(s, middle + 2, num16(s.bytes, middle))
}

pub fn skip_disjuncts(s: &Text<'_>, at: usize, n: u64) -> usize
    requires { at ≤ length s.now.bytes.now }
    ensures { Within at (length s.now.bytes.now) result × SkipsMany (DisjunctText (names_in s.now.book.now) s.now.bytes.now) (length s.now.bytes.now) at n result }
{
    skip_many(s, at, n, skip_disjunct)
}

// Free variables, body and head.
pub fn skip_sequent(s: &Text<'_>, at: usize) -> usize
    requires { at ≤ length s.now.bytes.now }
    ensures { Within at (length s.now.bytes.now) result × Skips (SequentText (names_in s.now.book.now) s.now.bytes.now) (length s.now.bytes.now) at result }
{
    if s.bytes.len() - at < 4 {
        return s.bytes.len();
    }
    let middle = skip_literals(s, at + 4, num16(s.bytes, at + 2));
    if s.bytes.len() - middle < 2 {
        return s.bytes.len();
    }
    skip_disjuncts(s, middle + 2, num16(s.bytes, middle))
}

pub fn skip_sequents(s: &Text<'_>, at: usize, n: u64) -> usize
    requires { at ≤ length s.now.bytes.now }
    ensures { Within at (length s.now.bytes.now) result × SkipsMany (SequentText (names_in s.now.book.now) s.now.bytes.now) (length s.now.bytes.now) at n result }
{
    skip_many(s, at, n, skip_sequent)
}
