//! Frames: requests to a monitor and its answers as bytes on a link.
//!
//! A frame is a first byte, a kind, a number, the length of its body, and the body; all numbers in it are little-endian.
//! `write_request` and `write_answer` write one, `read_request` and `read_answer` read it: what is written is read back as
//! it was, and of all other bytes nothing is read. None of them takes memory.
#![tactic(auto)]

mod frame_buf;
mod frames;
mod read_frame;
mod write_frame;

pub use frame_buf::{FrameBuf, MAX_FRAME_BYTES};
pub use frames::{
    ANSWER_BYTE, AnswerFrame, BAD_KIND, BYTES_KIND, DONE_KIND, DRAIN_KIND, FEED_KIND, GATE_KIND,
    GO_KIND, HEAD_BYTES, PEEK_KIND, POKE_KIND, REGISTERS_KIND, REQUEST_BYTE, RESET_KIND,
    RequestFrame, WENT_KIND, WORDS_KIND,
};
pub use read_frame::{read_answer, read_request};
pub use write_frame::{write_answer, write_request};
