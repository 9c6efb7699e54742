ghost use Rattle.std.specs.Prelude.{◌≡◌, ℤ, List, [], ◌∷◌, ◌++◌, IfOk};
ghost use Rattle.cs_edge.specs.Taps.{IsMirrorOf, mirror_line, mirror_text};
ghost use Rattle.cs_edge.specs.{inner.Page.Shows, Mirror.room_of, Mirror.kept_of, Mirror.count_of};

use crate::Tap;
use crate::page::{add_number, add_piece, add_signed};
use cs_base::OutOfMemory;
use std::alloc::Global;

/// A meter that stores the first values of the mix, and counts all of them.
#[derive(Drop)]
pub struct MirrorTap {
    block: Vec<i64>,
    used: usize,
    count: u64,
}

impl MirrorTap {
    /// Returns a mirror with room for `room` values, which represents the empty list.
    pub fn new(alloc: Global, room: u32) -> Result<MirrorTap, OutOfMemory>
        ensures none { IfOk result (λ t. ⟦<MirrorTap as Tap>⟧.stands_for t []) }
        ensures room { IfOk result (λ t. room_of t ≡ room) }
    {
        Ok(MirrorTap {
            block: vec![in alloc; 0i64; room as usize]?,
            used: 0,
            count: 0,
        })
    }

    /// Returns the first values of the mix, as many as the mirror has room for.
    pub fn kept(&self) -> &[i64]
        ensures { result.now ≡ kept_of self.now }
    {
        &self.block[..self.used.min(self.block.len())]
    }

    /// Returns the number of values of the mix; the count stays at 2^64 - 1 when it gets there.
    pub fn count(&self) -> u64
        ensures { result ≡ count_of self.now }
    {
        self.count
    }

    // Stores a value if there is room, and counts it.
    fn tell(&mut self, z: i64)
        ensures mirror { (h : List ℤ) → IsMirrorOf (room_of self.old) (kept_of self.old) (count_of self.old) h
            → IsMirrorOf (room_of self.new) (kept_of self.new) (count_of self.new) (h ++ z ∷ []) }
        ensures room { room_of self.new ≡ room_of self.old }
    {
        if self.used < self.block.len() {
            self.block[self.used] = z;
            self.used += 1;
        }
        self.count = self.count.saturating_add(1);
    }
}

impl Tap for MirrorTap {
    ghost stands_for = { λ t h. IsMirrorOf (room_of t) (kept_of t) (count_of t) h };

    ghost text = { λ t room. mirror_text (kept_of t) (count_of t) room };

    fn take(&mut self, frames: &[i64])
        ensures mirror { (h : List ℤ) → IsMirrorOf (room_of self.old) (kept_of self.old) (count_of self.old) h
            → IsMirrorOf (room_of self.new) (kept_of self.new) (count_of self.new) (h ++ frames.now) }
        ensures room { room_of self.new ≡ room_of self.old }
    {
        for z in frames {
            self.tell(*z);
        }
    }

    fn line(&self, out: &mut [u8]) -> usize {
        if let Some(used) = put_mirror(out, self.kept(), self.count) {
            return used;
        }
        put_mirror(out, &[], self.count).unwrap_or(0)
    }
}

// Writes a mirror's line at the start of the buffer, if it fits.
fn put_mirror(out: &mut [u8], kept: &[i64], count: u64) -> Option<usize>
    ensures { Shows result out.new (mirror_line kept.now count) }
{
    let used = add_piece(out, Some(0), b"mirror ");
    let mut used = add_number(out, used, count);
    for z in kept {
        used = add_piece(out, used, b" ");
        used = add_signed(out, used, *z);
    }
    add_piece(out, used, b"\n")
}
