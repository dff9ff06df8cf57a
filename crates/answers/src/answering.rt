// Answer frames, at the front of the output.
ghost use Rattle.std.specs.Prelude.{◌≡◌, true, ◌∷◌, [], ◌+◌, ◌*◌, ◌≤◌, length};
ghost use Rattle.laws.specs.Put.{put};
ghost use Rattle.octets.specs.Data.{data_of, tidy};
ghost use Rattle.codec.specs.Names.{frame_size, most_fragment_data};
ghost use Rattle.codec.specs.Writing.{image_of, subject_fits};
ghost use Rattle.codec.specs.Code.{long_places};
ghost use Rattle.codec.specs.declared.Message.TheVariants.{Fragment};
ghost use Rattle.guest.specs.Checks.{least_out, fragment_bytes, number_of};
ghost use Rattle.guest.specs.Errors.{code_of};
ghost use Rattle.guest.specs.Step.{answering, acknowledge_of, fragment_frame, fragment_frames, fragment_count, read_frames, sent};
ghost use Rattle.answers.specs.Code.{Answerable, answerable, single, refused_with, acknowledged_with, short_acknowledged, PieceReady, part_count, part_sent};

use codec::{ERRONEOUS, FRAME_SIZE, Header, SUCCESSFUL, Subject};
use guest::Refusal;
use octets::Data;

// The most bytes that one frame carries, and the bytes of a full fragment, to be compared with lengths.
const MOST_DATA: usize = octets::MOST as usize;

const FRAGMENT_BYTES: usize = guest::FRAGMENT_BYTES as usize;

// The code of a refusal, as the table of codes has it (02, 2026-06); 0 of those that put no error frame. 14 says its own number.
#[tactic(auto, unfolding(guest::specs::Errors::code_of))]
fn code(refusal: Refusal) -> u8
    ensures { result ≡ code_of (number_of refusal) }
{
    match refusal {
        Refusal::ActionOrEvent => guest::ILLEGAL_SERVICE_PARAMETERS,
        Refusal::BadShape => guest::ILLEGAL_DLC,
        Refusal::Unknown => guest::ILLEGAL_SERVICE_PARAMETERS,
        Refusal::NoAccess => guest::READ_ONLY_VARIABLE,
        Refusal::WrongLength => guest::ILLEGAL_DLC,
        Refusal::WrongPiece => guest::ILLEGAL_DLC,
        Refusal::OutOfOrder => refusal.number(),
        _ => 0,
    }
}

// Why a frame is refused, as its error frame says it, by the refusal's number: 0 where it has no entry.
#[tactic(auto, using(guest::proofs::Refusals::coded))]
pub fn code_of(number: u32) -> u8
    ensures { result ≡ code_of number }
{
    Refusal::of_number(number).map_or(0, code)
}

// The data of an error frame: one byte.
#[tactic(auto, unfolding(octets::specs::Data::data_of))]
fn reason(number: u8) -> Data
    ensures { result ≡ data_of (code_of number ∷ []) }
{
    octets::data_from(&[code_of(number as u32)])
}

// The place of frame n: 2 and 8 times n, by shifts in two widths, as `join::place_of` and for its reason.
fn frame_place(n: u8) -> usize
    ensures { result ≡ n * frame_size }
{
    ((n as usize) << 1) + (((n as u16) << 3) as usize)
}

// Frame n of the reply.
#[tactic(auto, using(crate::proofs::Sending::put_there))]
fn send(about: Subject, flag: u8, payload: Data, n: u8, out: &mut [u8])
    requires { n * frame_size + frame_size ≤ length out.old }
    ensures { out.new ≡ put out.old (n * frame_size) (long_places about flag payload) }
{
    let at = frame_place(n);
    let end = at + FRAME_SIZE;
    codec::put_long(about, flag, payload, &mut out[at..end]);
}

// Fragment n of a reply of so many bytes, with its data.
fn send_piece(about: Subject, n: usize, total: usize, body: Data, out: &mut [u8])
    requires { PieceReady about n total (length out.old) × (tidy most_fragment_data body ≡ true) }
    ensures { out.new ≡ put out.old (n * frame_size) (image_of (Fragment about n total body)) }
{
    let number = n as u8;
    send(
        about,
        1,
        codec::prefixed(number, total as u8, body),
        number,
        out,
    );
}

// A full fragment of a reply of so many bytes.
fn send_full(about: Subject, four: &[u8], n: usize, total: usize, out: &mut [u8])
    requires { PieceReady about n total (length out.old) × (length four.now ≡ fragment_bytes) }
    ensures { out.new ≡ put out.old (n * frame_size) (image_of (Fragment about n total (data_of four.now))) }
{
    send_piece(about, n, total, octets::data_from(four), out);
}

// The last fragment of an attribute's bytes: the rest, at most a full one.
fn send_rest(about: Subject, part: &[u8], n: usize, out: &mut [u8])
    requires { PieceReady about n (length part.now) (length out.old) × (fragment_bytes * n ≤ length part.now)
        × (length part.now ≤ fragment_bytes * n + fragment_bytes) }
    ensures { out.new ≡ put out.old (n * frame_size) (fragment_frame about part.now n) }
{
    let start = FRAGMENT_BYTES * n;
    let body = octets::data_from(&part[start..]);
    send_piece(about, n, part.len(), body, out);
}

// All fragments of an attribute's bytes, one behind the other: the full ones, and the rest if there is one.
fn send_fragments(about: Subject, part: &[u8], count: usize, out: &mut [u8])
    requires { (subject_fits about ≡ true) × (length part.now ≤ 255) × (count ≡ fragment_count (length part.now)) × (least_out ≤ length out.old) }
    ensures { out.new ≡ sent (fragment_frames about part.now count) out.old }
{
    for (n, four) in part.chunks_exact(FRAGMENT_BYTES).enumerate() {
        send_full(about, four, n, part.len(), out);
    }
    let full = part.len() / FRAGMENT_BYTES;
    if full < count {
        send_rest(about, part, full, out);
    }
}

// A frame that is answered: the address that it came to, which is ours, and its header.
#[derive(Clone, Copy)]
pub struct Request {
    pub own: u8,
    pub h: Header,
}

impl Request {
    // From our address, with the request's service, object and ID.
    fn answering(self, response: u8) -> Subject
        ensures { result ≡ answering self.own self.h response }
    {
        Subject {
            dir: 1,
            address: self.own,
            service: self.h.service,
            response,
            object: self.h.object,
            id: self.h.id,
        }
    }

    // One frame, flag clear. Nothing is tested but that it has room.
    #[tactic(auto, unfolding(crate::specs::Code::single))]
    fn send_single(self, response: u8, body: Data, out: &mut [u8])
        ensures { out.new ≡ single self.own self.h response body out.old }
    {
        if out.len() < FRAME_SIZE {
            return;
        }
        send(self.answering(response), 0, body, 0, out);
    }

    // A refusal, by its number.
    pub fn refuse(self, refusal: Refusal, out: &mut [u8])
        ensures { out.new ≡ refused_with self.own self.h (number_of refusal) out.old }
    {
        refuse(self.own, self.h, refusal.number(), out);
    }

    // A Write that is done: "one Successful frame, flag clear, DLC 2".
    pub fn acknowledge(self, out: &mut [u8])
        ensures { out.new ≡ acknowledged_with self.own self.h out.old }
    {
        self.send_single(SUCCESSFUL, octets::no_data(), out);
    }

    // The short acknowledge of a short Write (000, figure 3.4).
    fn acknowledge_of(self) -> u8
        ensures { result ≡ acknowledge_of self.h }
    {
        if self.h.service == codec::WRITE_ON {
            codec::WRITE_ON_ACK
        } else {
            codec::WRITE_OFF_ACK
        }
    }

    // A short Write that is done, in the form in which it came (02, 2026-01).
    #[tactic(auto, using(crate::proofs::Sending::put_short_there), unfolding(crate::specs::Code::short_acknowledged))]
    pub fn acknowledge_short(self, out: &mut [u8])
        ensures { out.new ≡ short_acknowledged self.own self.h out.old }
    {
        if out.len() < FRAME_SIZE {
            return;
        }
        codec::put_short(1, self.own, self.acknowledge_of(), &mut out[..FRAME_SIZE]);
    }

    // The frames of a Read, cut from the attribute's part of the store; how many they are.
    fn send_fitting(self, part: &[u8], out: &mut [u8]) -> u8
        requires { Answerable self.own self.h (length out.old) × (length part.now ≤ 255) }
        ensures { (result ≡ length (read_frames self.own self.h part.now)) × (out.new ≡ sent (read_frames self.own self.h part.now) out.old) }
    {
        if part.len() <= MOST_DATA {
            self.send_single(SUCCESSFUL, octets::data_from(part), out);
            return 1;
        }
        let count = (part.len() + 3) / FRAGMENT_BYTES;
        send_fragments(self.answering(SUCCESSFUL), part, count, out);
        count as u8
    }

    // Whether a frame carries this address, service and object, and the output has room for the most frames of a reply.
    #[tactic(auto, unfolding(crate::specs::Code::answerable))]
    fn answerable(self, out: usize) -> bool
        ensures { result ≡ answerable self.own self.h out }
    {
        self.own <= codec::MOST_ADDRESS
            && codec::LOWEST_LONG <= self.h.service
            && self.h.service <= 7
            && self.h.object <= 31
            && guest::LEAST_OUT <= out
    }

    // The frames of a Read, and how many they are: none where they do not fit.
    pub fn send_part(self, part: &[u8], out: &mut [u8]) -> u8
        ensures { (result ≡ part_count self.own self.h part.now out.old) × (out.new ≡ part_sent self.own self.h part.now out.old) }
    {
        if 255 < part.len() {
            return 0;
        }
        if self.answerable(out.len()) {
            return self.send_fitting(part, out);
        }
        0
    }
}

// "Refusals 7 to 14 put one frame: Error, flag clear" (13 is gone: 02, 2026-05), with "DLC 3 and one data byte" (02, 2026-06). Of any number: one without
// an entry has the byte 0.
pub fn refuse(own: u8, h: Header, number: u8, out: &mut [u8])
    ensures { out.new ≡ refused_with own h number out.old }
{
    Request { own, h }.send_single(ERRONEOUS, reason(number), out);
}
