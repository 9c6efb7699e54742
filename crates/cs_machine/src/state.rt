// What a note stores from cycle to cycle, and what it plays in.
ghost use Rattle.std.specs.Prelude.{◌≡◌, ℕ, ℤ, List, [], None, replicate, IfOk};
ghost use Rattle.cs_cells.specs.declared.footprint.Area.{Area};
ghost use Rattle.cs_ir.specs.Machine.{new_machine};
ghost use Rattle.cs_meaning.specs.Pieces.{Piece};
ghost use Rattle.cs_voice_meaning.specs.{Follows.Kinds, Room.channels_for, VoiceWorld.fresh_voice};
ghost use Rattle.cs_machine.specs.States.{IsStateIn, machine_of};

use crate::registers::zeros;
use crate::{Outputs, Player, Registers};
use cs_base::{Head, Num, OutOfMemory, Spaces};
use cs_cells::Layout;
use cs_ir::{Counts, Kind};
use std::alloc::Global;

/// What a note stores from cycle to cycle. Layers above use its parts one by one, so that a unit can run
/// while the registers are read.
#[derive(Drop)]
pub struct State<'p> {
    /// The registers of its code.
    pub regs: Registers,
    /// The unit of each number, if it was started.
    pub players: Vec<Option<Player<'p>>>,
    /// The samples that it has written to each output channel in this cycle.
    pub outs: Outputs,
    /// The number of samples in all its delays.
    pub delays: usize,
    /// Whether the note was turned off.
    pub ended: bool,
    /// A buffer for a row, with a number for each frame of a control cycle. Its contents don't matter.
    pub row: Vec<Num>,
}

/// What a note plays in: the header, the layout of the cells that notes share, the number of places in each
/// zak space, and the note's p-fields, from p1 on; any further p-field is 0.
#[derive(Clone, Copy)]
pub struct NoteSetting<'s> {
    pub head: &'s Head,
    pub layout: &'s Layout,
    pub spaces: Spaces,
    pub fields: &'s [Num],
}

impl<'p> State<'p> {
    /// Makes the state of a note that hasn't begun: its registers and channels are silent, and no unit was
    /// started. All the memory for its registers, channels and list of units is allocated now. `channels` is
    /// the number of channels of the piece, each with `ksmps` frames; without audio registers the state has
    /// no channels.
    pub fn new(
        alloc: Global,
        counts: Counts,
        ksmps: usize,
        channels: usize,
    ) -> Result<State<'p>, OutOfMemory>
        ensures machine { IfOk result (λ s. (cells : ℕ → ℤ) → machine_of s cells 0 [] None ≡ new_machine
            (fresh_voice cells)) }
        ensures state { IfOk result (λ s. (areas : List Area) (piece : Piece) (kinds : Kinds) → piece.head.ksmps ≡ ksmps
            → piece.head.nchnls ≡ channels → IsStateIn areas piece kinds counts s) }
    {
        Ok(State {
            row: zeros(alloc, ksmps)?,
            outs: Outputs::new(alloc, channels_for(&counts, channels), ksmps)?,
            regs: Registers::new(alloc, counts, ksmps)?,
            players: no_players(alloc, counts.units)?,
            delays: 0,
            ended: false,
        })
    }
}

// Returns the number of channels that a note can write to: none if no register is an audio register, since
// only audio registers are sent to channels.
fn channels_for(counts: &Counts, channels: usize) -> usize
    ensures { result ≡ channels_for counts.now channels }
{
    let registers = &counts.registers;
    if registers.of(Kind::LocalAudio) == 0 && registers.of(Kind::TemporaryAudio) == 0 {
        0
    } else {
        channels
    }
}

// Returns `count` places for units, none of which was started.
fn no_players<'p>(alloc: Global, count: usize) -> Result<Vec<Option<Player<'p>>>, OutOfMemory>
    ensures { IfOk result (λ v. v.items ≡ replicate count None) }
{
    let mut players = Vec::with_capacity(alloc, count)?;
    for _ in 0..count {
        players.push_reserved(None);
    }
    Ok(players)
}
