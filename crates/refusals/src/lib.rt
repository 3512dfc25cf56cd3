// refusals: what a call may refuse with, and its number by document 01. Done, which is no refusal, answers 0.
#![tactic(auto)]

ghost use Rattle.std.specs.Prelude.{◌≡◌};
ghost use Rattle.refusals.specs.Numbers.{number, answer};

// In document 01's order, which is the order of its numbers.
#[derive(Clone, Copy, Debug, PartialEq, Eq)]
pub enum Refusal {
    BookTooLong = 1,
    BookEnds = 2,
    WrongMark = 3,
    WrongVersion = 4,
    OutOfRange = 5,
    UnknownKind = 6,
    NotDeclared = 7,
    TooDeep = 8,
    WrongCount = 9,
    BytesLeftOver = 10,
    WrongPoolLength = 11,
    UnknownSetting = 12,
    PoolNotSound = 13,
    NothingWaiting = 14,
    ChildTooLarge = 15,
    NoFreeSlots = 16,
    NoModelNumbers = 17,
    ListEmpty = 18,
    OutputTooShort = 19,
}

impl From<Refusal> for u32 {
    ghost from_gives = { λ r n. n ≡ number r };

    fn from(r: Refusal) -> u32 {
        r as u32
    }
}

// What a call answers: 0 if it is done, else its refusal's number.
pub fn answer(done: Result<(), Refusal>) -> u32
    ensures { result ≡ answer done }
{
    match done {
        Ok(()) => 0,
        Err(r) => u32::from(r),
    }
}
