// lines: the listing's lines, written on a page behind what stands there. A page is bytes that a caller lends, from a place on; what
// stands elsewhere in them stays. What a line says is defined in specs/Text.antt. Entries of a sheet are eight bytes each
// (docs/FORMAT.md).
#![tactic(auto)]

ghost use Rattle.std.specs.Prelude.{◌≡◌, ◌+◌, ◌*◌, ◌^◌, ◌≤◌, ◌<◌, [], ◌∷◌, length};
ghost use Rattle.rules.specs.Image.{args_in, key_in, fact_in};
ghost use Rattle.lines.specs.Text.{fields, key_line, fact_line, depth_text, refusal};

// The bytes of an entry of a sheet.
pub const ENTRY: usize = 8;

// The most bytes that a field takes, of a number of three digits and of ten.
pub const FIELD: usize = 1 + 3;

pub const WIDE_FIELD: usize = 1 + 10;

// The most bytes that a line takes: its words, the line's end and its fields.
pub const KEY_LINE: usize = 6 + 7 * FIELD;

pub const FACT_LINE: usize = 5 + 5 * FIELD;

pub const DEPTH_LINE: usize = 6 + 2 * FIELD;

pub const REFUSAL: usize = 8 + WIDE_FIELD;

// A text on lent bytes, from its start to its end.
#[derive(Drop)]
pub struct Page<'a> {
    pub out: &'a mut [u8],
    pub start: usize,
    pub end: usize,
    pub ghost begins: { start ≤ end },
    pub ghost within: { end ≤ length out.now },
}

impl<'a> Page<'a> {
    // No text yet, on bytes from a place on.
    pub fn new(out: &'a mut [u8], start: usize) -> Page<'a>
        requires { start ≤ length out.old }
        ensures same_reference { result.out.ghost_name ≡ out.entry.ghost_name }
        ensures unchanged { result.out.now ≡ out.old }
        ensures empty { (result.start ≡ start) × (result.end ≡ start) }
    {
        Page {
            out,
            start,
            end: start,
        }
    }
}

impl Page<'_> {
    ghost use Rattle.lines.specs.Writes.{Writes, text_of};

    pub fn clear(&mut self)
        ensures same_reference { self.new.out.ghost_name ≡ self.old.out.ghost_name }
        ensures unchanged { self.new.out.now ≡ self.old.out.now }
        ensures empty { (self.new.start ≡ self.old.start) × (self.new.end ≡ self.old.start) }
    {
        self.end = self.start;
    }

    pub fn text(&self) -> &[u8]
        ensures { result.now ≡ text_of self.now }
    {
        &self.out[self.start..self.end]
    }

    // Bytes as they are.
    pub fn word(&mut self, w: &[u8])
        requires { self.old.end + length w.now ≤ length self.old.out.now }
        ensures { Writes self.old w.now self.new }
    {
        let start = self.end;
        let end = start + w.len();
        self.out[start..end].copy_from_slice(w);
        self.end = end;
    }

    // A space and a number in decimal, of at most so many digits.
    pub fn field<const DIGITS: usize>(&mut self, x: u64)
        requires { (0 < DIGITS) × (x < 10 ^ DIGITS) × (self.old.end + DIGITS + 1 ≤ length self.old.out.now) }
        ensures text { Writes self.old (fields (x ∷ [])) self.new }
        ensures short { self.new.end ≤ self.old.end + DIGITS + 1 }
    {
        self.word(b" ");
        self.word(itoa::Buffer::new().format(x).as_bytes());
    }

    // A field for each of some bytes.
    fn row(&mut self, s: &[u8])
        requires { self.old.end + FIELD * length s.now ≤ length self.old.out.now }
        ensures text { Writes self.old (fields s.now) self.new }
        ensures short { self.new.end ≤ self.old.end + FIELD * length s.now }
    {
        for b in s {
            self.field::<3>(*b as u64);
        }
    }

    // The line of a key.
    pub fn key_line(&mut self, entry: &[u8])
        requires { (length entry.now ≡ ENTRY) × (self.old.end + KEY_LINE ≤ length self.old.out.now) }
        ensures text { Writes self.old (key_line (key_in entry.now)) self.new }
        ensures short { self.new.end ≤ self.old.end + KEY_LINE }
    {
        self.word(b"key");
        self.row(&entry[..2]);
        self.row(arguments(entry));
        self.word(b" =");
        self.row(&entry[7..ENTRY]);
        self.word(b"\n");
    }

    // The line of a fact.
    pub fn fact_line(&mut self, entry: &[u8])
        requires { (length entry.now ≡ ENTRY) × (self.old.end + FACT_LINE ≤ length self.old.out.now) }
        ensures text { Writes self.old (fact_line (fact_in entry.now)) self.new }
        ensures short { self.new.end ≤ self.old.end + FACT_LINE }
    {
        self.word(b"fact");
        self.row(&entry[1..2]);
        self.row(arguments(entry));
        self.word(b"\n");
    }

    // The line of an element and its depth.
    pub fn depth_line(&mut self, element: u64, depth: u64)
        requires { (element < 1000) × (depth < 1000) × (self.old.end + DEPTH_LINE ≤ length self.old.out.now) }
        ensures text { Writes self.old (depth_text element depth) self.new }
        ensures short { self.new.end ≤ self.old.end + DEPTH_LINE }
    {
        self.word(b"depth");
        self.field::<3>(element);
        self.field::<3>(depth);
        self.word(b"\n");
    }

    // The line of a refusal.
    pub fn refusal(&mut self, x: u64)
        requires { (x < 10 ^ 10) × (self.old.end + REFUSAL ≤ length self.old.out.now) }
        ensures text { Writes self.old (refusal x) self.new }
        ensures short { self.new.end ≤ self.old.end + REFUSAL }
    {
        self.word(b"refused");
        self.field::<10>(x);
        self.word(b"\n");
    }
}

// The arguments of an entry: as many as it counts, of the four that there are.
fn arguments(entry: &[u8]) -> &[u8]
    requires { length entry.now ≡ ENTRY }
    ensures value { result.now ≡ args_in entry.now }
    ensures few { length result.now ≤ 4 }
{
    let count = (entry[2] as usize).min(4);
    &entry[3..3 + count]
}
