// counts: what the head of a book names, read at its place: five counts, the arities, the sequent count.
// Total: the answers are those of `names_in`, which are the names of the book if it is accepted (texts, `accepted`).
#![tactic(auto, using(texts::specs::Names::nums_at, texts::specs::Names::nums_past, texts::specs::Names::nums_length), unfolding(texts::specs::Names::names_in, texts::specs::Names::relations_at, texts::specs::Names::witnesses_at, texts::specs::Names::count_at, texts::specs::Names::sequents_at))]

ghost use Rattle.std.specs.Prelude.{◌≡◌, ◌<◌, length, get_or};
ghost use Rattle.rules.specs.Reading.{num, witnesses, witness_arity};
ghost use Rattle.texts.specs.Names.{nums, names_in, relations_at, witnesses_at, count_at, sequents_at};
ghost use Rattle.counts.specs.Kinds.{code_of_kind, KindOf};

use refusals::Refusal;
use words::num16;

pub fn constants(book: &[u8]) -> u64
    ensures { (result ≡ (names_in book.now).constants) × (result < 65536) }
{
    num16(book, 5)
}

pub fn functions(book: &[u8]) -> u64
    ensures { (result ≡ length (names_in book.now).functions) × (result < 65536) }
{
    num16(book, 7)
}

pub fn relations(book: &[u8]) -> u64
    ensures { (result ≡ length (names_in book.now).relations) × (result < 65536) }
{
    num16(book, 9)
}

pub fn constant_witnesses(book: &[u8]) -> u64
    ensures { (result ≡ (names_in book.now).constant_witnesses) × (result < 65536) }
{
    num16(book, 11)
}

pub fn function_witnesses(book: &[u8]) -> u64
    ensures { (result ≡ length (names_in book.now).function_witnesses) × (result < 65536) }
{
    num16(book, 13)
}

// Where the arities of relations start, then those of function witnesses, then the sequent count.
fn relations_at(book: &[u8]) -> u64
    ensures { (result ≡ relations_at book.now) × (result < 200000) }
{
    15 + 2 * num16(book, 7)
}

fn witnesses_at(book: &[u8]) -> u64
    ensures { (result ≡ witnesses_at book.now) × (result < 400000) }
{
    relations_at(book) + 2 * num16(book, 9)
}

fn count_at(book: &[u8]) -> u64
    ensures { (result ≡ count_at book.now) × (result < 600000) }
{
    witnesses_at(book) + 2 * num16(book, 13)
}

// The arity of a symbol, of which there are `count` from `start` on; 0 if it is not declared.
fn arity_at(book: &[u8], start: u64, count: u64, symbol: u64) -> u64
    requires { (start < 400000) × (count < 65536) }
    ensures { (result ≡ get_or (nums book.now start count) symbol 0) × (result < 65536) }
{
    if symbol < count {
        num16(book, (start + 2 * symbol) as usize)
    } else {
        0
    }
}

pub fn function_arity(book: &[u8], f: u64) -> u64
    ensures { (result ≡ get_or (names_in book.now).functions f 0) × (result < 65536) }
{
    arity_at(book, 15, num16(book, 7), f)
}

pub fn relation_arity(book: &[u8], r: u64) -> u64
    ensures { (result ≡ get_or (names_in book.now).relations r 0) × (result < 65536) }
{
    arity_at(book, relations_at(book), num16(book, 9), r)
}

pub fn witness_arity(book: &[u8], w: u64) -> u64
    ensures { (result ≡ get_or (names_in book.now).function_witnesses w 0) × (result < 65536) }
{
    arity_at(book, witnesses_at(book), num16(book, 13), w)
}

pub fn sequent_count(book: &[u8]) -> u64
    ensures { (result ≡ num book.now (count_at book.now)) × (result < 65536) }
{
    num16(book, count_at(book) as usize)
}

pub fn sequents_start(book: &[u8]) -> usize
    ensures { (result ≡ sequents_at book.now) × (result < 700000) }
{
    (count_at(book) + 2) as usize
}

// The kinds of witnesses.
#[derive(Clone, Copy)]
pub enum WitnessKind {
    Constant = 0,
    Function = 1,
}

// The kind that a book's number stands for, if it stands for one.
impl TryFrom<u64> for WitnessKind {
    type Error = Refusal;

    ghost try_from_gives = { KindOf };

    fn try_from(number: u64) -> Result<Self, Refusal> {
        match number {
            0 => Ok(WitnessKind::Constant),
            1 => Ok(WitnessKind::Function),
            _ => Err(Refusal::UnknownKind),
        }
    }
}

// How many witnesses of a kind are declared, and the arity of one.
pub fn witnesses_of(book: &[u8], kind: WitnessKind) -> u64
    ensures { (result ≡ witnesses (names_in book.now) (code_of_kind kind)) × (result < 65536) }
{
    match kind {
        WitnessKind::Constant => constant_witnesses(book),
        WitnessKind::Function => function_witnesses(book),
    }
}

pub fn arity_of(book: &[u8], kind: WitnessKind, w: u64) -> u64
    ensures { (result ≡ witness_arity (names_in book.now) (code_of_kind kind) w) × (result < 65536) }
{
    match kind {
        WitnessKind::Constant => 0,
        WitnessKind::Function => witness_arity(book, w),
    }
}
