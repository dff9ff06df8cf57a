// The tally.
ghost use Rattle.std.specs.Prelude.{◌≡◌, ℕ};
ghost use Rattle.collect.specs.Step.{gives};
ghost use Rattle.collect.specs.Tally.{one_more, tallied};
ghost use Rattle.collect.specs.Code.{answered};

use crate::{Collected, Tally, Value};

// One more where something came up, up to the largest value, where it stays. `saturating_add` and one test by && were tried: up to ten instructions more
// in a call of sds_collect, whose rows of bench are at the limit.
fn one_more(n: u32, on: bool) -> u32
    ensures { result ≡ one_more n on }
{
    if on {
        if n < u32::MAX {
            return n + 1;
        }
        return n;
    }
    n
}

// The tally after a call that hands this over, if anything, and that lost a half-joined message or not. Whether it was refused, and why, does not count.
pub fn counted(t: Tally, value: Option<Value>, dropped: bool) -> Tally
    ensures { (number : ℕ) → result ≡ tallied t (gives number value dropped) }
{
    Tally {
        seen: one_more(t.seen, true),
        finished: one_more(t.finished, value.is_some()),
        dropped: one_more(t.dropped, dropped),
    }
}

// The tally after a call.
pub fn tallied(t: Tally, c: Collected) -> Tally
    ensures { result ≡ tallied t (answered c) }
{
    counted(t, c.outcome.unwrap_or(None), c.dropped)
}
