// One call: checks 1 to 6 put no frame and are answered at once; a short Write gives its state; what else is asked for is a plan, which is carried out.
ghost use Rattle.std.specs.Prelude.{◌≡◌};
ghost use Rattle.guest.specs.Step.{areas, call, outcome_in, step_of};

use crate::applying::apply;
use crate::switching::switch;
use answers::Request;
use guest::Refusal;

// What 01 and 02 say of one frame, for every input of any length: how many frames stand at the front of the output, or why it is refused.
pub fn step(
    frame: &[u8],
    own: u32,
    table: &[u8],
    store: &mut [u8],
    work: &mut [u8],
    out: &mut [u8],
) -> Result<u8, Refusal>
    ensures { outcome_in result (areas store.new work.new) out.new
        ≡ step_of (call frame.now own table.now (areas store.old work.old) out.old) }
{
    if judge::misfit(own, table, store.len(), work.len(), out.len(), frame) {
        return Err(Refusal::Misfit);
    }
    // The whole table as a part of itself: a slice that is made here need not be laid out in memory before check 1.
    if !table::well_formed(&table[..], store.len()) {
        return Err(Refusal::IllFormed);
    }
    let h = codec::header_of(frame);
    // not by `?`: an edit of what is answered here is then refused for a fact, and not for its form
    match judge::route(own, h) {
        Ok(()) => {}
        Err(refusal) => return Err(refusal),
    }
    let request = Request { own: own as u8, h };
    if h.dlc == 0 {
        return switch(request, table, store, out);
    }
    match judge::request_plan(table, h, frame) {
        Ok(plan) => apply(plan, request, store, work, out),
        Err(refusal) => {
            request.refuse(refusal, out);
            Err(refusal)
        }
    }
}
