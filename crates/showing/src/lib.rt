// showing: the tables of a working form, for lookup: its regions of keys and of facts, lent as they are, and its domain, listed anew.
#![tactic(auto)]

ghost use Rattle.std.specs.Prelude.{◌≤◌, length};
ghost use Rattle.limits.specs.Limits.{limits_of};
ghost use Rattle.showing.specs.Tables.{Orderly, TablesOf};

use domains::list_domain;
use limits::Limits;
use look::Tables;

// The tables of the form; the domain is listed into the buffer.
pub fn tables_of<'a>(w: &'a [u64], limits: Limits, dom: &'a mut [u64]) -> Tables<'a>
    requires { Orderly (limits_of limits) w.now × (limits.keys ≤ length dom.old) }
    ensures { TablesOf (limits_of limits) w.now result.keys.now result.facts.now result.domain.now }
{
    let at = limits.facts_at();
    let keys = &w[5..5 + w[3] as usize];
    let facts = &w[at..at + w[4] as usize];
    let nd = list_domain(keys, dom);
    Tables {
        keys,
        facts,
        domain: &dom[..nd],
    }
}
