//! Reading frames.
ghost use Rattle.std.specs.Prelude.{◌≡◌, ◌+◌, ◌*◌, ◌%◌, ◌≤◌, ◌<◌, ◌∷◌, ◌++◌, true, length, drop, IfSome};
ghost use Rattle.byteorder.specs.Endian.{little_number};
ghost use Rattle.target_monitor.specs.declared.requests.TheConstants.{MAX_WORDS, MAX_PIECE_BYTES};
ghost use Rattle.target_monitor.specs.Served.{HasForm};
ghost use Rattle.link_frames.specs.declared.frames.TheConstants.{HEAD_BYTES};
ghost use Rattle.link_frames.specs.Frames.{number_in, length_in, is_whole, words_in, poke_in, peek_in, gate_in, go_in, feed_in, if_empty, request_in, plain_end, end_in, words_reply_in, went_in, bytes_in, reply_in, request_of, answer_of, request_frame, answer_frame};

use crate::frame_buf::MAX_FRAME_BYTES;
use crate::frames::{
    ANSWER_BYTE, AnswerFrame, BAD_KIND, BYTES_KIND, DONE_KIND, DRAIN_KIND, FEED_KIND, GATE_KIND,
    GO_KIND, HEAD_BYTES, PEEK_KIND, POKE_KIND, REGISTERS_KIND, REQUEST_BYTE, RESET_KIND,
    RequestFrame, WENT_KIND, WORDS_KIND,
};
use byteorder::{ByteOrder, LittleEndian};
use target_monitor::{GoEnd, MAX_GATES, MAX_PIECE_BYTES, MAX_WORDS, Piece, Reply, Request, Words};

/// The request that bytes say: `None` exactly where they are no whole frame of a request with a number of at least 1 and
/// a body of its kind's form.
#[tactic(auto, unfolding(crate::specs::Frames::request_of))]
pub fn read_request(frame: &[u8]) -> Option<RequestFrame>
    ensures request { result ≡ request_of frame.now }
    ensures form { IfSome result (λ f. HasForm f.request) }
    ensures written { IfSome result (λ f. frame.now ≡ request_frame f) }
{
    if !is_whole(REQUEST_BYTE, frame) {
        return None;
    }
    let number = number_in(frame);
    match request_in(frame[1], after(frame, HEAD_BYTES)) {
        None => None,
        Some(request) => Some(RequestFrame { number, request }),
    }
}

/// The answer that bytes say: `None` exactly where they are no whole frame of an answer.
#[tactic(auto, unfolding(crate::specs::Frames::answer_of))]
pub fn read_answer(frame: &[u8]) -> Option<AnswerFrame>
    ensures answer { result ≡ answer_of frame.now }
    ensures written { IfSome result (λ f. frame.now ≡ answer_frame f) }
{
    if !is_whole(ANSWER_BYTE, frame) {
        return None;
    }
    let number = number_in(frame);
    match reply_in(frame[1], after(frame, HEAD_BYTES)) {
        None => None,
        Some(reply) => Some(AnswerFrame { number, reply }),
    }
}

// All bytes from a place on.
fn after(bytes: &[u8], at: usize) -> &[u8]
    requires { at ≤ length bytes.now }
    ensures { result.now ≡ drop at bytes.now }
{
    &bytes[at..]
}

// The word at a place.
fn word_at(bytes: &[u8], at: usize) -> u16
    requires { at + 2 ≤ length bytes.now }
    ensures { result ≡ little_number 2 (drop at bytes.now) }
{
    LittleEndian::read_u16(after(bytes, at))
}

fn number_in(frame: &[u8]) -> u64
    requires { HEAD_BYTES ≤ length frame.now }
    ensures { result ≡ number_in frame.now }
{
    LittleEndian::read_u64(after(frame, 2))
}

fn is_whole(first: u8, frame: &[u8]) -> bool
    ensures whole { result ≡ is_whole first frame.now }
    ensures long { result ≡ true → HEAD_BYTES ≤ length frame.now }
{
    frame.len() >= HEAD_BYTES
        && frame.len() <= MAX_FRAME_BYTES
        && frame[0] == first
        && number_in(frame) > 0
        && word_at(frame, 10) as usize == frame.len() - HEAD_BYTES
}

fn request_in(kind: u8, body: &[u8]) -> Option<Request>
    ensures request { result ≡ request_in kind body.now }
    ensures form { IfSome result HasForm }
{
    match kind {
        RESET_KIND => empty_request(body, Request::Reset),
        POKE_KIND => poke_in(body),
        PEEK_KIND => peek_in(body),
        REGISTERS_KIND => empty_request(body, Request::Registers),
        GATE_KIND => gate_in(body),
        GO_KIND => go_in(body),
        DRAIN_KIND => empty_request(body, Request::Drain),
        FEED_KIND => feed_in(body),
        _ => None,
    }
}

fn empty_request(body: &[u8], request: Request) -> Option<Request>
    requires { HasForm request }
    ensures request { result ≡ if_empty body.now request }
    ensures form { IfSome result HasForm }
{
    if body.len() == 0 { Some(request) } else { None }
}

fn poke_in(body: &[u8]) -> Option<Request>
    ensures request { result ≡ poke_in body.now }
    ensures form { IfSome result HasForm }
{
    if body.len() % 2 == 0 && body.len() >= 4 && body.len() <= 2 + 2 * MAX_WORDS {
        Some(Request::Poke(word_at(body, 0), words_in(after(body, 2))))
    } else {
        None
    }
}

fn peek_in(body: &[u8]) -> Option<Request>
    ensures request { result ≡ peek_in body.now }
    ensures form { IfSome result HasForm }
{
    if body.len() != 4 {
        return None;
    }
    let count = word_at(body, 2);
    if count >= 1 && count as usize <= MAX_WORDS {
        Some(Request::Peek(word_at(body, 0), count))
    } else {
        None
    }
}

fn gate_in(body: &[u8]) -> Option<Request>
    ensures request { result ≡ gate_in body.now }
    ensures form { IfSome result HasForm }
{
    if body.len() == 4 && word_at(body, 2) <= 1 {
        Some(Request::Gate(word_at(body, 0), word_at(body, 2) == 1))
    } else {
        None
    }
}

fn go_in(body: &[u8]) -> Option<Request>
    ensures request { result ≡ go_in body.now }
    ensures form { IfSome result HasForm }
{
    if body.len() != 2 {
        return None;
    }
    let gates = word_at(body, 0);
    if gates >= 1 && gates <= MAX_GATES {
        Some(Request::Go(gates))
    } else {
        None
    }
}

fn feed_in(body: &[u8]) -> Option<Request>
    ensures request { result ≡ feed_in body.now }
    ensures form { IfSome result HasForm }
{
    if body.len() >= 3 && body.len() <= 2 + MAX_PIECE_BYTES {
        Some(Request::Feed(word_at(body, 0), piece_of(after(body, 2))))
    } else {
        None
    }
}

fn reply_in(kind: u8, body: &[u8]) -> Option<Reply>
    ensures { result ≡ reply_in kind body.now }
{
    match kind {
        DONE_KIND => empty_reply(body, Reply::Done),
        WORDS_KIND => words_reply_in(body),
        WENT_KIND => went_in(body),
        BYTES_KIND => bytes_in(body),
        BAD_KIND => empty_reply(body, Reply::Bad),
        _ => None,
    }
}

fn empty_reply(body: &[u8], reply: Reply) -> Option<Reply>
    ensures { result ≡ if_empty body.now reply }
{
    if body.len() == 0 { Some(reply) } else { None }
}

fn words_reply_in(body: &[u8]) -> Option<Reply>
    ensures { result ≡ words_reply_in body.now }
{
    if body.len() % 2 == 0 && body.len() <= 2 * MAX_WORDS {
        Some(Reply::Words(words_in(body)))
    } else {
        None
    }
}

fn went_in(body: &[u8]) -> Option<Reply>
    ensures { result ≡ went_in body.now }
{
    if body.len() != 5 {
        return None;
    }
    let passed = word_at(body, 3);
    match end_in(body[0], word_at(body, 1)) {
        None => None,
        Some(end) => Some(Reply::Went(end, passed)),
    }
}

fn end_in(number: u8, code: u16) -> Option<GoEnd>
    ensures { result ≡ end_in number code }
{
    if number == 3 {
        Some(GoEnd::Error(code))
    } else if code == 0 {
        plain_end(number)
    } else {
        None
    }
}

fn plain_end(number: u8) -> Option<GoEnd>
    ensures { result ≡ plain_end number }
{
    match number {
        0 => Some(GoEnd::Counted),
        1 => Some(GoEnd::AtBreak),
        2 => Some(GoEnd::Ended),
        4 => Some(GoEnd::MustDrain),
        5 => Some(GoEnd::Overrun),
        6 => Some(GoEnd::Bus),
        7 => Some(GoEnd::ConsoleFull),
        _ => None,
    }
}

fn bytes_in(body: &[u8]) -> Option<Reply>
    ensures { result ≡ bytes_in body.now }
{
    if body.len() <= MAX_PIECE_BYTES {
        Some(Reply::Bytes(piece_of(body)))
    } else {
        None
    }
}

fn words_in(bytes: &[u8]) -> Words
    requires even { length bytes.now % 2 ≡ 0 }
    requires few { length bytes.now ≤ 2 * MAX_WORDS }
    ensures words { result ≡ words_in bytes.now }
    ensures count { 2 * length result ≡ length bytes.now }
{
    let mut words = Words::new();
    for read in 0..bytes.len() / 2 {
        words.push(word_at(bytes, 2 * read));
    }
    words
}

fn piece_of(bytes: &[u8]) -> Piece
    requires { length bytes.now ≤ MAX_PIECE_BYTES }
    ensures { result ≡ bytes.now }
{
    let mut piece = Piece::new();
    for byte in bytes {
        piece.push(*byte);
    }
    piece
}
