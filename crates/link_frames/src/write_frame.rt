//! Writing frames.
ghost use Rattle.std.specs.Prelude.{◌≡◌, ◌+◌, ◌*◌, ◌≤◌, ◌<◌, ◌^◌, [], ◌∷◌, ◌++◌, length};
ghost use Rattle.byteorder.specs.Endian.{little_bytes};
ghost use Rattle.target_monitor.specs.declared.requests.TheConstants.{MAX_WORDS, MAX_PIECE_BYTES};
ghost use Rattle.target_monitor.specs.declared.requests.Request.TheVariants.{Poke};
ghost use Rattle.target_monitor.specs.declared.requests.Reply.TheVariants as spec;
ghost use Rattle.target_monitor.specs.Served.{HasForm};
ghost use Rattle.link_frames.specs.declared.frame_buf.TheConstants.{MAX_FRAME_BYTES};
ghost use Rattle.link_frames.specs.declared.frames.TheConstants.{REQUEST_BYTE, ANSWER_BYTE, POKE_KIND, FEED_KIND, WORDS_KIND, WENT_KIND, BYTES_KIND};
ghost use Rattle.link_frames.specs.Frames.{head, frame, word_bytes, request_frame, answer_frame, end_number, error_code, IsReadRequest, IsReadReply};
ghost use Rattle.link_frames.specs.Fits.{FitWords, FitsEnd, FitsRequest, FitsReply};

use crate::frame_buf::FrameBuf;
use crate::frames::{
    ANSWER_BYTE, BAD_KIND, BYTES_KIND, DONE_KIND, DRAIN_KIND, FEED_KIND, GATE_KIND, GO_KIND,
    PEEK_KIND, POKE_KIND, REGISTERS_KIND, REQUEST_BYTE, RESET_KIND, WENT_KIND, WORDS_KIND,
};
use target_monitor::{GoEnd, Piece, Reply, Request, Words};

/// Writes the frame of a request. It is read back as that request.
#[tactic(auto, unfolding(crate::specs::Frames::request_frame))]
pub fn write_request(number: u64, request: &Request, out: &mut FrameBuf)
    requires form { HasForm request.now }
    ensures frame { out.new ≡ request_frame (record { number = number; request = request.now }) }
    ensures reads { IsReadRequest request.now }
{
    match request {
        Request::Reset => write_words(REQUEST_BYTE, RESET_KIND, number, &[], out),
        Request::Poke(place, words) => write_poke(number, *place, words, out),
        Request::Peek(place, count) => write_words(
            REQUEST_BYTE,
            PEEK_KIND,
            number,
            &[*place, *count],
            out,
        ),
        Request::Registers => write_words(REQUEST_BYTE, REGISTERS_KIND, number, &[], out),
        Request::Gate(place, breaks) => {
            write_words(
                REQUEST_BYTE,
                GATE_KIND,
                number,
                &[*place, *breaks as u16],
                out,
            );
        }
        Request::Go(gates) => write_words(REQUEST_BYTE, GO_KIND, number, &[*gates], out),
        Request::Drain => write_words(REQUEST_BYTE, DRAIN_KIND, number, &[], out),
        Request::Feed(total, piece) => write_feed(number, *total, piece, out),
    }
}

/// Writes the frame of an answer. It is read back as that answer.
#[tactic(auto, unfolding(crate::specs::Frames::answer_frame))]
pub fn write_answer(number: u64, reply: &Reply, out: &mut FrameBuf)
    ensures frame { out.new ≡ answer_frame (record { number = number; reply = reply.now }) }
    ensures reads { IsReadReply reply.now }
{
    match reply {
        Reply::Done => write_words(ANSWER_BYTE, DONE_KIND, number, &[], out),
        Reply::Words(words) => write_reply_words(number, words, out),
        Reply::Went(end, passed) => write_went(number, *end, *passed, out),
        Reply::Bytes(piece) => write_bytes(number, piece, out),
        Reply::Bad => write_words(ANSWER_BYTE, BAD_KIND, number, &[], out),
    }
}

// Writes a frame's first twelve bytes.
fn begin(first: u8, kind: u8, number: u64, length: u16, out: &mut FrameBuf)
    ensures { out.new ≡ head first kind number length }
{
    out.clear();
    out.push(first);
    out.push(kind);
    out.push_number(number);
    out.push_word(length);
}

fn push_words(words: &[u16], out: &mut FrameBuf)
    requires { length out.old + 2 * length words.now ≤ MAX_FRAME_BYTES }
    ensures words { out.new ≡ out.old ++ word_bytes words.now }
    ensures fits { FitWords words.now }
{
    for word in words {
        out.push_word(*word);
    }
}

// Writes a frame whose body is words.
fn write_words(first: u8, kind: u8, number: u64, words: &[u16], out: &mut FrameBuf)
    requires few { length words.now ≤ MAX_WORDS }
    ensures frame { out.new ≡ frame first kind number (word_bytes words.now) }
    ensures fits { FitWords words.now }
{
    begin(first, kind, number, 2 * words.len() as u16, out);
    push_words(words, out);
}

fn write_poke(number: u64, place: u16, words: &Words, out: &mut FrameBuf)
    ensures frame { out.new ≡ frame REQUEST_BYTE POKE_KIND number (word_bytes (place ∷ words.now)) }
    ensures fits { FitsRequest (Poke place words.now) }
{
    let words = words.as_slice();
    begin(
        REQUEST_BYTE,
        POKE_KIND,
        number,
        2 + 2 * words.len() as u16,
        out,
    );
    out.push_word(place);
    push_words(words, out);
}

fn write_feed(number: u64, total: u16, piece: &Piece, out: &mut FrameBuf)
    ensures frame { out.new ≡ frame REQUEST_BYTE FEED_KIND number (little_bytes 2 total ++ piece.now) }
    ensures fits { total < 2 ^ 16 }
{
    let bytes = piece.as_slice();
    begin(REQUEST_BYTE, FEED_KIND, number, 2 + bytes.len() as u16, out);
    out.push_word(total);
    out.append(bytes);
}

fn write_reply_words(number: u64, words: &Words, out: &mut FrameBuf)
    ensures frame { out.new ≡ frame ANSWER_BYTE WORDS_KIND number (word_bytes words.now) }
    ensures fits { FitsReply (spec.Words words.now) }
{
    write_words(ANSWER_BYTE, WORDS_KIND, number, words.as_slice(), out);
}

fn write_bytes(number: u64, piece: &Piece, out: &mut FrameBuf)
    ensures frame { out.new ≡ frame ANSWER_BYTE BYTES_KIND number piece.now }
    ensures few { length piece.now ≤ MAX_PIECE_BYTES }
{
    let bytes = piece.as_slice();
    begin(ANSWER_BYTE, BYTES_KIND, number, bytes.len() as u16, out);
    out.append(bytes);
}

fn write_went(number: u64, end: GoEnd, passed: u16, out: &mut FrameBuf)
    ensures frame { out.new ≡ frame ANSWER_BYTE WENT_KIND number (end_number end ∷ word_bytes (error_code end ∷ passed ∷ [])) }
    ensures fits { FitsReply (spec.Went end passed) }
{
    begin(ANSWER_BYTE, WENT_KIND, number, 5, out);
    out.push(end_number(end));
    out.push_word(error_code(end));
    out.push_word(passed);
}

fn end_number(end: GoEnd) -> u8
    ensures { result ≡ end_number end }
{
    match end {
        GoEnd::Counted => 0,
        GoEnd::AtBreak => 1,
        GoEnd::Ended => 2,
        GoEnd::Error(_) => 3,
        GoEnd::MustDrain => 4,
        GoEnd::Overrun => 5,
        GoEnd::Bus => 6,
        GoEnd::ConsoleFull => 7,
    }
}

fn error_code(end: GoEnd) -> u16
    ensures code { result ≡ error_code end }
    ensures fits { FitsEnd end }
{
    match end {
        GoEnd::Error(code) => code,
        _ => 0,
    }
}
