// evalforms: what fires on a sheet that stands in its working form. The domain is listed, and the evaluator reads the keys and the
// facts where they stand in the form: nothing is copied.
#![tactic(auto)]

ghost use Rattle.std.specs.Prelude.{◌≤◌, length};
ghost use Rattle.limits.specs.Limits.{limits_of};
ghost use Rattle.settings.specs.Codes.{strategy_is};
ghost use Rattle.evalforms.specs.Basis.{Basis, Evaluated};

use evaluate::{Fired, evaluate};
use limits::Limits;
use settings::Strategy;
use showing::tables_of;

// What fires on the form, over the book's sequents in the order of the strategy; the choice is left in the environment.
pub fn evaluate_form(
    book: &[u8],
    strategy: Strategy,
    base: &[u64],
    limits: Limits,
    env: &mut [u64],
    dom: &mut [u64],
) -> Option<Fired>
    requires { Basis book.now (limits_of limits) base.now × ((8 ≤ length env.old) × (limits.keys ≤ length dom.old)) }
    ensures { Evaluated book.now (strategy_is strategy) (limits_of limits) base.now result env.new }
{
    let t = tables_of(base, limits, dom);
    evaluate(book, strategy, base[1], env, &t)
}
