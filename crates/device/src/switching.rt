// A short Write (02, 2026-01): object 0's point takes its state. The work area is not lent to it.
ghost use Rattle.std.specs.Prelude.{◌≡◌, List, ℕ, length};
ghost use Rattle.guest.specs.Step.{areas, outcome_in};
ghost use Rattle.device.specs.Code.{SwitchReady, switched_out};

use answers::Request;
use guest::Refusal;

// Check 5 of a frame in short form that passes checks 1 to 4, and what is done and answered where it passes.
pub(crate) fn switch(
    request: Request,
    table: &[u8],
    store: &mut [u8],
    out: &mut [u8],
) -> Result<u8, Refusal>
    requires { SwitchReady request.own table.now (length store.old) (length out.old) }
    ensures { (work : List ℕ) → outcome_in result (areas store.new work) out.new
        ≡ switched_out table.now request.own request.h (areas store.old work) out.old }
{
    let to = judge::point_for(table, request.h).ok_or(Refusal::NoService)?;
    writes::store_state(to, judge::state_of(request.h), store);
    request.acknowledge_short(out);
    Ok(1)
}
