// Keys and facts as one number of eight digits to base 256, highest first: kind, symbol, number of arguments, four
// arguments, value. A fact has kind 0 and value 0. The number / 256 is the key.
#![tactic(auto)]

ghost use Rattle.std.specs.Prelude.{◌≡◌, ◌<◌};
ghost use Rattle.rules.specs.Merge.{rename};
ghost use Rattle.packing.specs.Replace.{count_of, arg_of, key_of, value_of, replaced};

pub fn count(x: u64) -> u64
    ensures { (result ≡ count_of x) × (result < 256) }
{
    x / 1099511627776 % 256
}

// The i-th of the four arguments.
#[tactic(auto, unfolding(crate::specs::Replace::arg_of))]
pub fn argument(x: u64, i: u64) -> u64
    requires { i < 4 }
    ensures { (result ≡ arg_of x i) × (result < 256) }
{
    match i {
        0 => x / 4294967296 % 256,
        1 => x / 16777216 % 256,
        2 => x / 65536 % 256,
        _ => x / 256 % 256,
    }
}

pub fn key(x: u64) -> u64
    ensures { result ≡ key_of x }
{
    x / 256
}

pub fn value(x: u64) -> u64
    ensures { (result ≡ value_of x) × (result < 256) }
{
    x % 256
}

// One element in place of another: the one that stays, and the one that goes.
#[derive(Clone, Copy)]
pub struct Replacement {
    pub stays: u64,
    pub goes: u64,
    pub ghost octet: { stays < 256 },
}

impl Replacement {
    // What an element is then: the one that goes becomes the one that stays.
    pub fn renamed(self, e: u64) -> u64
        requires { e < 256 }
        ensures { (result ≡ rename self.stays self.goes e) × (result < 256) }
    {
        if e == self.goes { self.stays } else { e }
    }

    // The same in the four arguments and the value of an entry.
    #[tactic(auto, unfolding(crate::specs::Replace::replaced))]
    pub fn replace(self, x: u64) -> u64
        ensures { result ≡ replaced self.stays self.goes x }
    {
        let a0 = self.renamed(argument(x, 0));
        let a1 = self.renamed(argument(x, 1));
        let a2 = self.renamed(argument(x, 2));
        let a3 = self.renamed(argument(x, 3));
        let v = self.renamed(value(x));
        x / 1099511627776 * 1099511627776
            + a0 * 4294967296
            + a1 * 16777216
            + a2 * 65536
            + a3 * 256
            + v
    }
}
