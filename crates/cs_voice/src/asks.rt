// Notes that a note schedules as it begins.
ghost use Rattle.std.specs.Prelude.{◌≡◌, ◌++◌, ◌∷◌, [], map, true, OnOk};
ghost use Rattle.std.specs.List.{list_all};
ghost use Rattle.cs_ir.specs.{Placed.regs_read, Asks.ask_of, Validity.has_register, Waves.first_values};
ghost use Rattle.cs_machine.specs.Registers.{values};

use cs_base::{Num, OutOfMemory};
use cs_ir::{Ask, Reads};
use cs_machine::Registers;
use std::alloc::Global;

/// Appends the note that some values schedule to the notes scheduled before.
pub(crate) fn ask(alloc: Global, asks: &mut Vec<Ask>, values: &[Num]) -> Result<(), OutOfMemory>
    ensures { OnOk result (asks.new.items ≡ asks.old.items ++ ask_of values.now ∷ []) }
{
    let asked = Ask::of(alloc, values)?;
    asks.push(asked)?;
    Ok(())
}

/// Fills `into` with the values of registers as the note begins, after removing its earlier contents.
pub(crate) fn gather(
    regs: &Registers,
    from: Reads<'_>,
    into: &mut Vec<Num>,
) -> Result<(), OutOfMemory>
    requires { list_all (has_register regs.now.counts) (regs_read from) ≡ true }
    ensures { OnOk result (into.new.items ≡ first_values (map (values regs.now) (regs_read from.entry))) }
{
    into.clear();
    for place in 0..from.len() {
        let Some(register) = from.get(place) else {
            unreachable!()
        };
        into.push(regs.first(register))?;
    }
    Ok(())
}
