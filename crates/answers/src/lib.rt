// The frames of an answer, at the front of the output (01, from "The reply is the number and the count of frames" on).
#![tactic(auto)]

mod answering;

pub use answering::{Request, code_of, refuse};
