// limits: how many elements, keys and facts a sheet has room for, and the lengths and places that follow. Limits are handed on as one
// value; a contract reads them as the definitions' own by `limits_of`.
#![tactic(auto)]

ghost use Rattle.std.specs.Prelude.{◌≡◌, ◌+◌, ◌<◌};
ghost use Rattle.limits.specs.Limits.{limits_of, slot_size, slot_facts_at, slot_depths_at, slot_at, facts_at, depths_at, history_at};

// How many elements, keys and facts.
#[derive(Clone, Copy)]
pub struct Limits {
    pub elements: usize,
    pub keys: usize,
    pub facts: usize,
}

// Those of a pool of version 1.
pub const LIMITS: Limits = Limits {
    elements: 64,
    keys: 128,
    facts: 128,
};

// Bytes of a pool's head.
pub const HEAD: usize = 208;

// Bytes of a slot.
pub const SLOT: usize = 16 + 8 * LIMITS.keys + 8 * LIMITS.facts + LIMITS.elements;

// Where the keys stand in a slot, behind its head.
pub const SLOT_KEYS: usize = 16;

// Entries of a working form.
pub const FORM: usize = 6 + 2 * LIMITS.keys + LIMITS.facts + 2 * LIMITS.elements;

impl Limits {
    // Bytes of a slot.
    pub fn slot_size(self) -> usize
        requires { slot_size (limits_of self) < 18446744073709551616 }
        ensures { result ≡ slot_size (limits_of self) }
    {
        16 + 8 * self.keys + 8 * self.facts + self.elements
    }

    // Where the facts stand in a slot: behind the keys, each of eight bytes.
    pub fn slot_facts_at(self) -> usize
        requires { slot_facts_at (limits_of self) < 18446744073709551616 }
        ensures { result ≡ slot_facts_at (limits_of self) }
    {
        SLOT_KEYS + 8 * self.keys
    }

    // Where the depths stand in a slot, behind the facts.
    pub fn slot_depths_at(self) -> usize
        requires { slot_depths_at (limits_of self) < 18446744073709551616 }
        ensures { result ≡ slot_depths_at (limits_of self) }
    {
        self.slot_facts_at() + 8 * self.facts
    }

    // Where slot i stands in a pool.
    pub fn slot_at(self, i: usize) -> usize
        requires { slot_at (limits_of self) i + slot_size (limits_of self) < 18446744073709551616 }
        ensures { result ≡ slot_at (limits_of self) i }
    {
        HEAD + self.slot_size() * i
    }

    // Where the facts stand in a working form: behind the counts, the keys and the room for pairs, which is one more than keys.
    pub fn facts_at(self) -> usize
        requires { facts_at (limits_of self) < 18446744073709551616 }
        ensures { result ≡ facts_at (limits_of self) }
    {
        6 + self.keys + self.keys
    }

    // Where the depths stand, behind the facts.
    pub fn depths_at(self) -> usize
        requires { depths_at (limits_of self) < 18446744073709551616 }
        ensures { result ≡ depths_at (limits_of self) }
    {
        self.facts_at() + self.facts
    }

    // Where it stands what each element is now, behind the depths.
    pub fn history_at(self) -> usize
        requires { history_at (limits_of self) < 18446744073709551616 }
        ensures { result ≡ history_at (limits_of self) }
    {
        self.depths_at() + self.elements
    }
}
