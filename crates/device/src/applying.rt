// A plan carried out: all that alters the lent areas is done from here, by writes, join and answers.
ghost use Rattle.std.specs.Prelude.{◌≡◌, length};
ghost use Rattle.answers.specs.Code.{Answerable};
ghost use Rattle.writes.specs.Code.{JoinReady};
ghost use Rattle.guest.specs.declared.Plan.TheVariants.{Join};
ghost use Rattle.guest.specs.Step.{areas, outcome_in};
ghost use Rattle.device.specs.Code.{Ready, carried_out};

use answers::Request;
use guest::{Plan, Refusal};
use join::Piece;
use octets::Data;
use table::Attribute;

// A fragment of a Write, as a plan's Join has it. (The plan names its parts one by one, since the definitions and theorems about Join do.)
#[derive(Clone, Copy)]
struct Part {
    number: u8,
    total: u8,
    body: Data,
}

// A fragment of a Write: out of order, the last, or kept.
fn apply_join(
    to: Attribute,
    part: Part,
    request: Request,
    store: &mut [u8],
    work: &mut [u8],
    out: &mut [u8],
) -> Result<u8, Refusal>
    requires { Answerable request.own request.h (length out.old) × JoinReady to part.number part.total part.body (length store.old) (length work.old) }
    ensures { outcome_in result (areas store.new work.new) out.new
        ≡ carried_out (Join to part.number part.total part.body) request.own request.h (areas store.old work.old) out.old }
{
    let Part {
        number,
        total,
        body,
    } = part;
    let at = join::place_of(to.object);
    // its data do not matter to what is asked of it here
    let piece = Piece {
        key: [to.id],
        total,
        number,
        body: &[],
    };
    if join::is_astray(work, at, guest::FRAGMENT_BYTES, &piece) {
        join::clear(work, at);
        request.refuse(Refusal::OutOfOrder, out);
        return Err(Refusal::OutOfOrder);
    }
    if join::is_last(guest::FRAGMENT_BYTES, &piece) {
        writes::store_joined(to, number, body, work, store);
        join::clear(work, at);
        request.acknowledge(out);
        return Ok(1);
    }
    writes::keep_piece(to, number, total, body, work);
    Ok(0)
}

// What is done and answered.
pub(crate) fn apply(
    plan: Plan,
    request: Request,
    store: &mut [u8],
    work: &mut [u8],
    out: &mut [u8],
) -> Result<u8, Refusal>
    requires { Ready plan request.own request.h (length store.old) (length work.old) (length out.old) }
    ensures { outcome_in result (areas store.new work.new) out.new
        ≡ carried_out plan request.own request.h (areas store.old work.old) out.old }
{
    match plan {
        Plan::Read(a) => Ok(request.send_part(table::part(a, store), out)),
        Plan::Write { to, body } => {
            writes::store_data(to, body, store);
            request.acknowledge(out);
            Ok(1)
        }
        Plan::Join {
            to,
            number,
            total,
            body,
        } => {
            let part = Part {
                number,
                total,
                body,
            };
            apply_join(to, part, request, store, work, out)
        }
    }
}
