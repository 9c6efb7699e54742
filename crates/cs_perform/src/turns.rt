// The line that reports the turn of each note of a cycle.
ghost use Rattle.std.specs.Prelude.{◌≡◌, ◌++◌, OnOk};
ghost use Rattle.cs_piece_meaning.specs.Moments.{Moment};
ghost use Rattle.cs_perform.specs.inner.Stands.{IsAt};
ghost use Rattle.cs_piece.specs.Setups.{composition_of};
ghost use Rattle.cs_turns.specs.Turns.{line_of, turns_in};

use crate::stand::Stand;
use cs_base::OutOfMemory;
use cs_desk::feet_of;
use cs_edge::Gate;
use cs_piece::Setup;
use cs_turns::{add_turns, has_line, layouts_have_the_stock, turns_are_levels};
use std::alloc::Global;

/// Appends the line that lists the turns of a cycle whose notes have begun, or does nothing if the cycle has no line.
pub(crate) fn tell_turns<G: Gate>(
    alloc: Global,
    setup: &Setup,
    cycle: u32,
    stand: &mut Stand<'_, G>,
    turns: &mut Vec<u8>,
) -> Result<(), OutOfMemory>
    requires { (m : Moment) × IsAt setup.now stand.old m }
    ensures at { OnOk result ((m : Moment) → IsAt setup.now stand.old m → IsAt setup.now stand.new m) }
    ensures told { OnOk result ((m : Moment) → IsAt setup.now stand.old m
        → turns.new.items ≡ turns.old.items ++ line_of cycle (turns_in (composition_of setup.now) m.active)) }
{
    if !has_line(cycle) {
        return Ok(());
    }
    setup.facts();
    layouts_have_the_stock();
    turns_are_levels();
    let feet = feet_of(alloc, &stand.voices)?;
    stand.turns.follow(alloc, feet)?;
    add_turns(alloc, turns, cycle, &stand.turns.graph)
}
