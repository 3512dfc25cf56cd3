// settings: the numbers by which a host sets a call, read as what they stand for. A number that stands for nothing is refused as an
// unknown setting; the bytes of a sound pool stand for something, and are read totally. And the lists of a pool's header, of which a
// host may name two, with the places where they stand.
#![tactic(auto)]

ghost use Rattle.std.specs.Prelude.{◌≡◌, ◌+◌, ◌*◌, ◌<◌, ◌≤◌, min, get_or, MatchResult};
ghost use Rattle.refusals.specs.declared.Refusal.TheVariants.{UnknownSetting};
ghost use Rattle.rules.specs.Pool.{scheduler_of, strategy_of};
ghost use Rattle.settings.specs.Codes.{code_of_scheduler, code_of_strategy, code_of_source, scheduler_is, strategy_is, Reads};
ghost use Rattle.settings.specs.Numbers.{number_of};

use refusals::Refusal;

// Where open children join those that wait: behind them or before them.
#[derive(Clone, Copy, Debug, PartialEq, Eq)]
pub enum Scheduler {
    Fifo = 0,
    Lifo = 1,
}

// The order in which a sheet visits the sequents: from the first one, or from its place.
#[derive(Clone, Copy, Debug, PartialEq, Eq)]
pub enum Strategy {
    Linear = 0,
    Fair = 1,
}

// The lists that sheets are taken from.
#[derive(Clone, Copy, Debug, PartialEq, Eq)]
pub enum Source {
    Complete = 0,
    Bounded = 1,
}

// Which of two things a call's number stands for: 0 for the first, 1 for the second.
fn one_of<T: Copy>(two: [T; 2], number: u32) -> Result<T, Refusal>
    ensures { MatchResult result (λ x. (number < 2) × (x ≡ get_or two number x)) (λ e. (e ≡ UnknownSetting) × (2 ≤ number)) }
{
    two.get(number as usize)
        .copied()
        .ok_or(Refusal::UnknownSetting)
}

// Which of two things a byte of a sound pool stands for: 0 for the first, any other for the second.
fn first_or_second<T: Copy>(two: [T; 2], n: u64) -> T
    ensures { result ≡ get_or two (min n 1) result }
{
    two[n.min(1) as usize]
}

impl TryFrom<u32> for Scheduler {
    type Error = Refusal;

    ghost try_from_gives = { Reads code_of_scheduler };

    fn try_from(number: u32) -> Result<Self, Refusal> {
        one_of([Scheduler::Fifo, Scheduler::Lifo], number)
    }
}

impl From<Scheduler> for u8 {
    ghost from_gives = { λ s n. n ≡ code_of_scheduler s };

    fn from(s: Scheduler) -> u8 {
        s as u8
    }
}

impl Scheduler {
    // The scheduler that a pool's byte stands for.
    pub fn of_byte(n: u64) -> Scheduler
        ensures { scheduler_is result ≡ scheduler_of n }
    {
        first_or_second([Scheduler::Fifo, Scheduler::Lifo], n)
    }
}

impl TryFrom<u32> for Strategy {
    type Error = Refusal;

    ghost try_from_gives = { Reads code_of_strategy };

    fn try_from(number: u32) -> Result<Self, Refusal> {
        one_of([Strategy::Linear, Strategy::Fair], number)
    }
}

impl From<Strategy> for u8 {
    ghost from_gives = { λ s n. n ≡ code_of_strategy s };

    fn from(s: Strategy) -> u8 {
        s as u8
    }
}

impl Strategy {
    // The strategy that a pool's byte stands for.
    pub fn of_byte(n: u64) -> Strategy
        ensures { strategy_is result ≡ strategy_of n }
    {
        first_or_second([Strategy::Linear, Strategy::Fair], n)
    }
}

impl TryFrom<u32> for Source {
    type Error = Refusal;

    ghost try_from_gives = { Reads code_of_source };

    fn try_from(number: u32) -> Result<Self, Refusal> {
        one_of([Source::Complete, Source::Bounded], number)
    }
}

// The most slots of a list.
pub const MOST_LISTED: usize = 64;

// The lists of slots in a pool's header. Each is counted by a byte, and stands in 64 bytes.
#[derive(Clone, Copy)]
pub enum SlotList {
    Waiting,
    Complete,
    Bounded,
}

impl SlotList {
    // Where its count stands.
    pub fn counted_at(self) -> usize
        ensures { (result ≡ 12 + number_of self) × (number_of self < 3) }
    {
        12 + self as usize
    }

    // Where its slots begin.
    pub fn starts_at(self) -> usize
        ensures { (result ≡ 16 + 64 * number_of self) × (number_of self < 3) }
    {
        16 + 64 * (self as usize)
    }
}

// The list that a call takes from.
impl From<Source> for SlotList {
    ghost from_gives = { λ s l. number_of l ≡ 1 + code_of_source s };

    fn from(source: Source) -> SlotList {
        match source {
            Source::Complete => SlotList::Complete,
            Source::Bounded => SlotList::Bounded,
        }
    }
}
