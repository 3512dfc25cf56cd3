// mentions: is a variable in a literal, or in one of several that follow one another? The nodes of their text are asked one after another.
#![tactic(auto)]

ghost use Rattle.std.specs.Prelude.{◌≡◌, ◌+◌, ◌-◌, ◌*◌, ◌/◌, ◌≤◌, ◌<◌, length};
ghost use Rattle.texts.specs.Names.{names_in};
ghost use Rattle.mentions.specs.Nodes.{node_is, nodes_have, Mentions};
ghost use Rattle.mentions.specs.Rows.{MentionsOne};

use nodes::{Claim, Text, claim_at};
use skips::skip_literal;
use words::num16;

// Is the node at a place the variable v?
fn node_is(text: &[u8], at: usize, v: u64) -> bool
    requires { at + 4 ≤ length text.now }
    ensures { result ≡ node_is text.now at v }
{
    num16(text, at) == 0 && num16(text, at + 2) == v
}

// Is one of k nodes from a place on?
fn nodes_have(text: &[u8], at: usize, k: usize, v: u64) -> bool
    requires { at + 4 * k ≤ length text.now }
    ensures { result ≡ nodes_have text.now at k v }
{
    (0..k).any(|i| node_is(text, at + 4 * i, v))
}

// Is one of the nodes from a place to a place?
fn span_has(text: &[u8], b: usize, e: usize, v: u64) -> bool
    requires { e ≤ length text.now }
    ensures { result ≡ nodes_have text.now b ((e - b) / 4) v }
{
    e >= b && nodes_have(text, b, (e - b) / 4, v)
}

// Is the variable in the literal at a place?
pub fn literal_mentions(s: &Text<'_>, at: usize, v: u64) -> bool
    requires { at ≤ length s.now.bytes.now }
    ensures { Mentions (names_in s.now.book.now) s.now.bytes.now v at result }
{
    let e = skip_literal(s, at);
    match claim_at(s, at) {
        None => false,
        Some(Claim::Fact(..)) => span_has(s.bytes, at + 4, e, v),
        Some(Claim::Same) => span_has(s.bytes, at + 2, e, v),
    }
}

// Is it in one of n literals from a place on?
pub fn mentioned(s: &Text<'_>, at: usize, n: u64, v: u64) -> bool
    requires { at ≤ length s.now.bytes.now }
    ensures { MentionsOne (names_in s.now.book.now) s.now.bytes.now v at n result }
{
    let mut p = at;
    for _ in 0..n {
        if literal_mentions(s, p, v) {
            return true;
        }
        p = skip_literal(s, p);
    }
    false
}
