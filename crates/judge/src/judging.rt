// Checks 7 to 12, in 01's order: what a Request asks for. No state is looked at.
ghost use Rattle.std.specs.Prelude.{◌≡◌};
ghost use Rattle.judge.specs.Code.{sought_by, piece_plan, body_plan, write_plan, read_plan, plan_by_service};

use codec::{Header, Message};
use guest::{Plan, Refusal};
use octets::Data;
use table::Attribute;

// Check 12 of a fragment.
#[tactic(auto, unfolding(crate::specs::Code::piece_plan))]
fn piece_plan(to: Attribute, number: u8, total: u8, body: Data) -> Result<Plan, Refusal>
    ensures { result ≡ piece_plan to number total body }
{
    if !join::is_shaped(guest::FRAGMENT_BYTES, total, number, body.len) {
        return Err(Refusal::WrongPiece);
    }
    Ok(Plan::Join {
        to,
        number,
        total,
        body,
    })
}

// Checks 11 and 12 of a Write.
#[tactic(auto, unfolding(crate::specs::Code::body_plan))]
fn body_plan(a: Attribute, m: Message) -> Result<Plan, Refusal>
    ensures { result ≡ body_plan a m }
{
    match m {
        Message::Short { .. } => Err(Refusal::BadShape),
        Message::Plain { body, .. } => {
            if body.len != a.len {
                return Err(Refusal::WrongLength);
            }
            Ok(Plan::Write { to: a, body })
        }
        Message::Fragment {
            number,
            total,
            body,
            ..
        } => {
            if total != a.len {
                return Err(Refusal::WrongLength);
            }
            piece_plan(a, number, total, body)
        }
    }
}

// Checks 9 to 12 of a Write.
#[tactic(auto, unfolding(crate::specs::Code::write_plan))]
fn write_plan(table: &[u8], h: Header, m: Message) -> Result<Plan, Refusal>
    ensures { result ≡ write_plan m (sought_by table.now h) }
{
    let a = table::find(table, h.object, h.id).ok_or(Refusal::Unknown)?;
    if !table::may_write(a) {
        return Err(Refusal::NoAccess);
    }
    body_plan(a, m)
}

// Checks 8 to 10 of a Read. It has no data, so the codec is not asked for its message.
#[tactic(auto, unfolding(crate::specs::Code::read_plan))]
fn read_plan(table: &[u8], h: Header) -> Result<Plan, Refusal>
    ensures { result ≡ read_plan h (sought_by table.now h) }
{
    if h.flag == 1 || h.dlc != 2 {
        return Err(Refusal::BadShape);
    }
    let a = table::find(table, h.object, h.id).ok_or(Refusal::Unknown)?;
    if !table::may_read(a) {
        return Err(Refusal::NoAccess);
    }
    Ok(Plan::Read(a))
}

// Checks 7 to 12: what a Request with this header asks for. Of one that passes checks 1 to 6 this is what 01's list gives (`request_planned`).
#[tactic(auto, unfolding(crate::specs::Code::plan_by_service))]
pub fn request_plan(table: &[u8], h: Header, frame: &[u8]) -> Result<Plan, Refusal>
    ensures { result ≡ plan_by_service table.now h frame.now }
{
    if codec::READ_SERVICE < h.service {
        return Err(Refusal::ActionOrEvent);
    }
    if h.service == codec::READ_SERVICE {
        return read_plan(table, h);
    }
    let Ok(m) = codec::read(frame) else {
        // The codec gives no message of a fragment without number and total; of the rest that it refuses, checks 3 and 5 left nothing.
        return Err(Refusal::BadShape);
    };
    write_plan(table, h, m)
}
