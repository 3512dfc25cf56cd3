// evaluate: the first sequent in the order of a strategy, and the first choice, that fires. Each sequent is handed to the search for
// a choice as the part of the book that holds it. Linear starts at the first sequent; Fair starts at the sheet's place and wraps.
#![tactic(auto)]

ghost use Rattle.std.specs.Prelude.{◌+◌, ◌≤◌, ◌<◌, length};
ghost use Rattle.base.specs.Lists.{All};
ghost use Rattle.rules.specs.Reading.{num};
ghost use Rattle.settings.specs.Codes.{strategy_is};
ghost use Rattle.texts.specs.Names.{count_at};
ghost use Rattle.evaluate.specs.Answers.{Handed, FirstOf, Evaluates};

use counts::{sequent_count, sequents_start};
use firing::first_choice;
use look::Tables;
use nodes::Text;
use settings::Strategy;
use skips::{skip_sequent, skip_sequents};

// A sequent that fires: its number, its place and the place behind it.
#[derive(Clone, Copy)]
pub struct Fired {
    pub number: u64,
    pub at: usize,
    pub end: usize,
}

// The part of the book that holds the sequent at a place; the next one starts behind it.
pub fn sequent_at(book: &[u8], at: usize) -> &[u8]
    requires { at ≤ length book.now }
    ensures { Handed book.now at result.now }
{
    let e = skip_sequent(&Text { book, bytes: book }, at);
    &book[at..e]
}

// The first of n sequents from a place on that fires; the first of them has number i.
fn first_of(
    book: &[u8],
    at: usize,
    i: u64,
    n: u64,
    env: &mut [u64],
    t: &Tables<'_>,
) -> Option<Fired>
    requires fits { (at ≤ length book.now) × ((i + n < 65536) × (8 ≤ length env.old)) }
    requires octets { All (λ e. e < 256) t.now.domain.now }
    ensures { FirstOf book.now at i n t.now.keys.now t.now.facts.now t.now.domain.now result env.new }
{
    let mut p = at;
    for j in 0..n {
        let q = sequent_at(book, p);
        let end = p + q.len();
        if first_choice(&Text { book, bytes: q }, env, t) {
            return Some(Fired {
                number: i + j,
                at: p,
                end,
            });
        }
        p = end;
    }
    None
}

// What fires, over the book's sequents in the order of the strategy from the sheet's place on.
pub fn evaluate(
    book: &[u8],
    strategy: Strategy,
    place: u64,
    env: &mut [u64],
    t: &Tables<'_>,
) -> Option<Fired>
    requires fits { (place ≤ num book.now (count_at book.now)) × (8 ≤ length env.old) }
    requires octets { All (λ e. e < 256) t.now.domain.now }
    ensures { Evaluates book.now (strategy_is strategy) place t.now.keys.now t.now.facts.now t.now.domain.now result env.new }
{
    let n = sequent_count(book);
    let start = sequents_start(book);
    if start > book.len() {
        return None;
    }
    match strategy {
        Strategy::Linear => first_of(book, start, 0, n, env, t),
        Strategy::Fair => {
            let middle = skip_sequents(&Text { book, bytes: book }, start, place);
            match first_of(book, middle, place, n - place, env, t) {
                None => first_of(book, start, 0, place, env, t),
                found => found,
            }
        }
    }
}
