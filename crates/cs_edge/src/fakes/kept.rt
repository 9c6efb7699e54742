// The calls made on an object in memory, as long as memory suffices to store them.
ghost use Rattle.std.specs.Prelude.{◌≡◌, [], Some, IfOk};
ghost use Rattle.cs_edge.specs.{Told.Follows, Moves.GrownBy, Memory.told_moves, declared.moves.Move.TheVariants.Begin};

use crate::Move;
use cs_base::{Items, Text};
use std::alloc::{AllocError, Global};

/// The calls so far, and whether all of them are stored.
#[derive(Drop)]
pub struct Kept {
    pub alloc: Global,
    pub moves: Items<Move>,
    pub told: bool,
}

impl Kept {
    /// Returns an empty list of calls. It allocates nothing yet.
    pub fn new(alloc: Global) -> Kept
        ensures { told_moves result ≡ Some [] }
    {
        Kept {
            alloc,
            moves: Items::new(alloc),
            told: true,
        }
    }

    /// Stores one more call. If memory runs out, no calls are told from then on.
    pub fn add(&mut self, made: Move)
        ensures { Follows (told_moves self.old) (told_moves self.new) (GrownBy made) }
    {
        if self.told {
            self.told = self.moves.push(made).is_ok();
        }
    }

    /// Stores a `begin` with this name.
    pub fn add_begin(&mut self, name: &str)
        ensures { Follows (told_moves self.old) (told_moves self.new) (GrownBy (Begin name.now)) }
    {
        match text_of(self.alloc, name) {
            Ok(name) => self.add(Move::Begin(name)),
            Err(_) => self.told = false,
        }
    }
}

/// Returns a copy of a name.
pub fn text_of(alloc: Global, name: &str) -> Result<Text, AllocError>
    ensures { IfOk result (λ text. text ≡ name.now) }
{
    Ok(Text::from_string(String::from_str(alloc, name)?))
}
