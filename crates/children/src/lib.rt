// children: the children of a sequent that fired, one at a time. A child is made in a scratch form over a copy of the form that
// holds the base; the environment has the chosen elements in front, and gets the keys of the disjunct's origins behind them.
#![tactic(auto)]

ghost use Rattle.std.specs.Prelude.{◌≡◌, ◌≤◌, ◌<◌, length, take, is_err};
ghost use Rattle.limits.specs.Limits.{limits_of};
ghost use Rattle.enter.specs.Grow.{Sturdy, sturdy_prop};
ghost use Rattle.bound.specs.Bounds.{bound_is};
ghost use Rattle.firing.specs.Answers.{Elements};
ghost use Rattle.children.specs.Derived.{IsDerived, AnyOver};
ghost use Rattle.children.specs.Lent.{HasRoom, SameLent};

use bound::Bound;
use child::child;
use firing::make_env;
use limits::Limits;
use nodes::Text;
use skips::skip_disjunct;
use telling::{Case, TooLarge};
use words::num16;

// What stays while the children of a sequent that fired are made: the book, how many elements are chosen, the bound, and the base in its
// working form.
#[derive(Clone, Copy)]
pub struct Branching<'a> {
    pub book: &'a [u8],
    pub chosen: usize,
    pub bound: Bound,
    pub base: &'a [u64],
    pub limits: Limits,
    pub ghost few: { chosen < 65536 },
    pub ghost sturdy: { Sturdy (limits_of limits) base.now } by { sturdy_prop (limits_of limits) base.now },
}

// What a caller lends to be written over for each child: its working form, as long as the base's, an environment with the chosen
// elements in front, and room for the elements that live, which are no more than a sheet has keys.
#[derive(Drop)]
pub struct Scratch<'a> {
    pub form: &'a mut [u64],
    pub env: &'a mut [u64],
    pub domain: &'a mut [u64],
}

// One form over another of the same length. It is copied here, entry by entry: `copy_from_slice` of a form becomes a call of memmove, and the
// calls are to need no function of the C library but memset.
fn copy_form(base: &[u64], form: &mut [u64])
    requires { length form.old ≡ length base.now }
    ensures { form.new ≡ base.now }
{
    for (i, x) in form.iter_mut().enumerate() {
        *x = base[i];
    }
}

// The child of the disjunct at a place, in lent slices. The answer: was one of its literals skipped?
fn derive_in(
    p: &Branching<'_>,
    at: usize,
    form: &mut [u64],
    env: &mut [u64],
    domain: &mut [u64],
) -> Result<bool, TooLarge>
    requires { (at ≤ length p.now.book.now) × Elements env.old p.now.chosen × (p.now.limits.keys ≤ length domain.old) × (length form.old ≡ length p.now.base.now) }
    ensures env_unchanged { take p.now.chosen env.new ≡ take p.now.chosen env.old }
    ensures sturdy { Sturdy (limits_of p.now.limits) form.new }
    ensures derived { IsDerived p.now.book.now at p.now.chosen (bound_is p.now.bound) (limits_of p.now.limits) env.old p.now.base.now result form.new }
{
    let (book, base) = (p.book, p.base);
    let text = Text { book, bytes: book };
    copy_form(base, form);
    if book.len() - at < 2 {
        return Err(TooLarge);
    }
    let k = num16(book, at) as usize;
    if env.len() - p.chosen < k {
        return Err(TooLarge);
    }
    make_env(&text, at + 2, k, env, p.chosen);
    let case = Case {
        text,
        bound: p.bound,
        env: &env[..p.chosen + k],
        limits: p.limits,
    };
    child(&case, at, p.chosen as u64, form, domain)
}

// The child of the disjunct at a place.
pub fn derive(p: &Branching<'_>, at: usize, m: &mut Scratch<'_>) -> Result<bool, TooLarge>
    requires { (at ≤ length p.now.book.now) × Elements m.old.env.now p.now.chosen × HasRoom p.now.limits.keys p.now.base.now m.old }
    ensures lent { SameLent m.old m.new }
    ensures env_unchanged { take p.now.chosen m.new.env.now ≡ take p.now.chosen m.old.env.now }
    ensures sturdy { Sturdy (limits_of p.now.limits) m.new.form.now }
    ensures derived { IsDerived p.now.book.now at p.now.chosen (bound_is p.now.bound) (limits_of p.now.limits) m.old.env.now p.now.base.now result m.new.form.now }
{
    derive_in(p, at, m.form, m.env, m.domain)
}

// Is there room for each of the children of n disjuncts from a place on?
pub fn all_fit(p: &Branching<'_>, at: usize, n: u64, m: &mut Scratch<'_>) -> Result<(), TooLarge>
    requires { (at ≤ length p.now.book.now) × Elements m.old.env.now p.now.chosen × HasRoom p.now.limits.keys p.now.base.now m.old }
    ensures lent { SameLent m.old m.new }
    ensures env_unchanged { take p.now.chosen m.new.env.now ≡ take p.now.chosen m.old.env.now }
    ensures any_over { AnyOver p.now.book.now at n p.now.chosen (bound_is p.now.bound) (limits_of p.now.limits) m.old.env.now p.now.base.now (is_err result) }
{
    let book = p.book;
    let text = Text { book, bytes: book };
    let mut q = at;
    for _ in 0..n {
        derive(p, q, m)?;
        q = skip_disjunct(&text, q);
    }
    Ok(())
}
