// A text in place.
ghost use Rattle.std.specs.Prelude.{◌≡◌, ◌≤◌, [], ◌∷◌, length};
ghost use Rattle.writing.specs.Writes.{Wrote, Written};

use adders::Refusal;
use std::marker::Model;

// The most bytes that a sheet has.
pub(crate) const MOST: usize = 4096;

// A text of at most 4,096 bytes. Of what is written past them nothing is kept.
#[derive(Drop)]
pub struct SheetText {
    bytes: [u8; MOST],
    len: usize,
}

impl Model for SheetText {
    ghost use Rattle.std.specs.Prelude.{◌≤◌, ℕ, List, take};

    ghost Value = { List ℕ };

    ghost view = { λ t. take t.len t.bytes };

    ghost invariant = { λ t. t.len ≤ 4096 };
}

impl SheetText {
    pub fn new() -> SheetText
        ensures { result ≡ [] }
    {
        SheetText {
            bytes: [0; MOST],
            len: 0,
        }
    }

    pub fn as_slice(&self) -> &[u8]
        ensures bytes { result.now ≡ self.now }
        ensures few { length self.now ≤ 4096 }
    {
        &self.bytes[..self.len]
    }

    pub fn len(&self) -> usize
        ensures count { result ≡ length self.now }
        ensures few { length self.now ≤ 4096 }
    {
        self.as_slice().len()
    }

    // One byte more at the end, where there is room.
    #[tactic(auto, using(crate::proofs::Joins::one_more, crate::proofs::Joins::no_more))]
    pub fn push(&mut self, byte: u8)
        ensures wrote { Wrote self.old (byte ∷ []) self.new }
        ensures full { 4096 ≤ length self.old → self.new ≡ self.old }
    {
        if self.len < MOST {
            self.bytes[self.len] = byte;
            self.len += 1;
        }
    }

    // The bytes of a key, as many as there is room for.
    #[tactic(auto, using(crate::proofs::Joins::kept_front))]
    pub fn key(&mut self, key: &[u8])
        ensures { Wrote self.old key.now self.new }
    {
        let kept = key.len().min(MOST - self.len);
        self.bytes[self.len..self.len + kept].copy_from_slice(&key[..kept]);
        self.len += kept;
    }

    // The text to the front of a buffer, and its length; a buffer that is shorter stays as it is.
    pub fn copy_to(&self, buffer: &mut [u8]) -> Result<usize, Refusal>
        ensures { Written self.now buffer.old result buffer.new }
    {
        let text = self.as_slice();
        if buffer.len() < text.len() {
            return Err(Refusal::BufferTooShort(text.len()));
        }
        buffer[..text.len()].copy_from_slice(text);
        Ok(text.len())
    }
}
