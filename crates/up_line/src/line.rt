ghost use Rattle.std.specs.Prelude.{◌≡◌, ◌+◌, ◌-◌, ◌≤◌, ◌^◌, ◌<◌, length, IfOk, IfSome, IsSome, OnSome};
ghost use Rattle.up_line.specs.Sheet.{after, blank, room};

use std::alloc::Global;
use std::marker::Model;
use up_text::Memory;

/// A line of bytes with a room that is reserved when it is made.
///
/// What finds no room is only counted, so a line with no room measures a text.
#[derive(Drop)]
pub struct Line {
    bytes: Vec<u8>,
    free: usize,
    left: usize,
}

impl Model for Line {
    ghost use Rattle.std.specs.Prelude.{◌+◌, ◌≤◌, vec_len, vec_capacity};
    ghost use Rattle.up_line.specs.Sheet.{Sheet};

    ghost Value = { Sheet };

    ghost view = { λ l. record { text = l.bytes.items; free = l.free; left = l.left } };

    ghost invariant = { λ l. vec_len l.bytes + l.free ≤ vec_capacity l.bytes };
}

impl Line {
    /// A line that only measures.
    #[tactic(auto, unfolding(crate::specs::Sheet::blank))]
    pub fn measuring(alloc: Global) -> Line
        ensures { result ≡ blank 0 }
    {
        Line {
            bytes: Vec::new(alloc),
            free: 0,
            left: usize::MAX,
        }
    }

    /// An empty line with room for so many bytes.
    #[tactic(auto, unfolding(crate::specs::Sheet::blank))]
    pub fn with_room(alloc: Global, room: usize) -> Result<Line, Memory>
        ensures { IfOk result (λ line. line ≡ blank room) }
    {
        Ok(Line {
            bytes: Vec::with_capacity(alloc, room)?,
            free: room,
            left: usize::MAX,
        })
    }

    /// Puts the bytes behind what stands there.
    #[tactic(auto, unfolding(crate::specs::Sheet::after))]
    pub fn put(&mut self, bytes: &[u8])
        ensures { self.new ≡ after self.old bytes.now }
    {
        let kept = bytes.len().min(self.free);
        let _ = self.bytes.extend_from_slice(&bytes[..kept]);
        self.free -= kept;
        self.left = self.left.saturating_sub(bytes.len());
    }

    /// Empties the line, and keeps its room.
    #[tactic(auto, unfolding(crate::specs::Sheet::blank))]
    pub fn clear(&mut self)
        ensures { self.new ≡ blank (room self.old) }
    {
        self.free += self.bytes.len();
        self.left = usize::MAX;
        self.bytes.clear();
    }

    /// How many bytes were put since the line was empty, if they can be counted.
    pub fn count(&self) -> Option<usize>
        ensures some { IfSome result (λ n. n + self.now.left ≡ 2 ^ 64 - 1) }
        ensures none { OnSome result (0 < self.now.left) }
        ensures countable { 0 < self.now.left → IsSome result }
    {
        if self.left == 0 {
            None
        } else {
            Some(usize::MAX - self.left)
        }
    }

    /// The bytes that found room.
    pub fn bytes(&self) -> &[u8]
        ensures { result.now ≡ self.now.text }
    {
        &self.bytes
    }

    /// The same, moved out of the line.
    pub fn into_bytes(self) -> Vec<u8>
        ensures { result.items ≡ self.text }
    {
        let Line { bytes, .. } = self;
        bytes
    }
}
