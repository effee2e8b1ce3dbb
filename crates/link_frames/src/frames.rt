//! What a frame says, and the numbers of its head.
use target_monitor::{Reply, Request};

/// The first byte of a request.
pub const REQUEST_BYTE: u8 = 0x44;

/// The first byte of an answer.
pub const ANSWER_BYTE: u8 = 0x52;

/// How many bytes stand before the body.
pub const HEAD_BYTES: usize = 12;

/// The kinds of requests.
pub const RESET_KIND: u8 = 1;

pub const POKE_KIND: u8 = 2;

pub const PEEK_KIND: u8 = 3;

pub const REGISTERS_KIND: u8 = 4;

pub const GATE_KIND: u8 = 5;

pub const GO_KIND: u8 = 6;

pub const DRAIN_KIND: u8 = 7;

pub const FEED_KIND: u8 = 8;

/// The kinds of answers.
pub const DONE_KIND: u8 = 0;

pub const WORDS_KIND: u8 = 1;

pub const WENT_KIND: u8 = 2;

pub const BYTES_KIND: u8 = 3;

pub const BAD_KIND: u8 = 4;

/// A request with its number, from 1.
#[derive(Drop)]
pub struct RequestFrame {
    pub number: u64,
    pub request: Request,
}

/// A reply with the number of its request.
#[derive(Drop)]
pub struct AnswerFrame {
    pub number: u64,
    pub reply: Reply,
}
