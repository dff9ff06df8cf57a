// Runs each worked example of 000, section 5, through the codec: read, told in the words of the paper's DESCRIPTION row, and written back.
#![tactic(auto)]

mod examples;
mod words;

use codec::Message;
use examples::EXAMPLES;
use std::io;
use words::Words;

// Whether writing the message gives the record, all ten bytes of it. No example has the byte that is in each place before.
fn is_written_back(m: Message, frame: &[u8]) -> bool {
    let mut again = [0xFF_u8; codec::FRAME_SIZE];
    codec::write(m, &mut again).is_ok() && &again[..] == frame
}

fn show(rt: &impl Print, label: &str, frame: &[u8]) -> io::Result<()> {
    match codec::read(frame) {
        Ok(m) => {
            let words = Words(m);
            let end = if is_written_back(m, frame) {
                "written back"
            } else {
                "NOT WRITTEN BACK"
            };
            println!(rt; "{label:8} {words}; {end}")
        }
        Err(e) => {
            let number = e.number();
            println!(rt; "{label:8} refused {number}")
        }
    }
}

fn main(rt: HostRuntime) -> io::Result<()> {
    for (label, frame) in EXAMPLES {
        show(&rt, label, &frame)?;
    }
    Ok(())
}
