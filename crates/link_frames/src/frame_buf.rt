//! Room for the bytes of a frame.
ghost use Rattle.std.specs.Prelude.{◌≡◌, ◌+◌, ◌<◌, ◌≤◌, [], ◌∷◌, ◌++◌, length};
ghost use Rattle.byteorder.specs.Endian.{little_bytes};
ghost use Rattle.link_frames.specs.declared.frame_buf.TheConstants.{MAX_FRAME_BYTES};

use byteorder::{ByteOrder, LittleEndian};
use std::marker::Model;

/// The most bytes of a frame.
pub const MAX_FRAME_BYTES: usize = 1_036;

/// At most 1,036 bytes. Clauses see their list.
#[derive(Drop)]
pub struct FrameBuf {
    /// How many bytes there are.
    pub len: u16,
    /// The bytes come first; what follows them means nothing.
    pub bytes: [u8; MAX_FRAME_BYTES],
}

impl Model for FrameBuf {
    ghost use Rattle.std.specs.Prelude.{◌≡◌, ◌≤◌, ℕ, List, take, length};
    ghost use Rattle.link_frames.specs.declared.frame_buf.TheConstants.{MAX_FRAME_BYTES};

    ghost Value = { List ℕ };

    ghost view = { λ f. take f.len f.bytes };

    ghost invariant = { λ f. (f.len ≤ MAX_FRAME_BYTES) × (length f.bytes ≡ MAX_FRAME_BYTES) };
}

impl FrameBuf {
    /// No bytes.
    pub fn new() -> FrameBuf
        ensures { result ≡ [] }
    {
        FrameBuf {
            len: 0,
            bytes: [0; MAX_FRAME_BYTES],
        }
    }

    /// A copy of at most 1,036 bytes.
    pub fn copy_of(bytes: &[u8]) -> FrameBuf
        requires { length bytes.now ≤ MAX_FRAME_BYTES }
        ensures { result ≡ bytes.now }
    {
        let mut copy = FrameBuf::new();
        copy.append(bytes);
        copy
    }

    /// The bytes, in order.
    pub fn as_slice(&self) -> &[u8]
        ensures bytes { result.now ≡ self.now }
        ensures few { length self.now ≤ MAX_FRAME_BYTES }
    {
        &self.bytes[..self.len as usize]
    }

    /// Drops all bytes.
    pub fn clear(&mut self)
        ensures { self.new ≡ [] }
    {
        self.len = 0;
    }

    /// Adds a byte at the end.
    pub fn push(&mut self, byte: u8)
        requires { length self.old < MAX_FRAME_BYTES }
        ensures { self.new ≡ self.old ++ byte ∷ [] }
    {
        self.bytes[self.len as usize] = byte;
        self.len += 1;
    }

    /// Adds bytes at the end.
    pub fn append(&mut self, bytes: &[u8])
        requires { length self.old + length bytes.now ≤ MAX_FRAME_BYTES }
        ensures { self.new ≡ self.old ++ bytes.now }
    {
        for byte in bytes {
            self.push(*byte);
        }
    }

    /// Adds the two bytes of a word at the end, the low one first.
    pub fn push_word(&mut self, word: u16)
        requires { length self.old + 2 ≤ MAX_FRAME_BYTES }
        ensures { self.new ≡ self.old ++ little_bytes 2 word }
    {
        let mut bytes = [0; 2];
        LittleEndian::write_u16(&mut bytes, word);
        self.append(&bytes);
    }

    /// Adds the eight bytes of a number at the end, the lowest first.
    pub fn push_number(&mut self, number: u64)
        requires { length self.old + 8 ≤ MAX_FRAME_BYTES }
        ensures { self.new ≡ self.old ++ little_bytes 8 number }
    {
        let mut bytes = [0; 8];
        LittleEndian::write_u64(&mut bytes, number);
        self.append(&bytes);
    }
}
