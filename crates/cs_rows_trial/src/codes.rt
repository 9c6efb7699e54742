// Codes made by hand: which of them can be run, and which are handed back as they were.
ghost use Rattle.std.specs.Prelude.{◌≡◌, true, IfOk, OnOk};
ghost use Rattle.cs_ir.specs.{Codes.is_unaimed, Drafts.library_of};
ghost use Rattle.cs_ir.specs.Routines.{AreRoutines, IsRoutineOf, library_in};

use cs_base::{OutOfMemory, PerRate};
use cs_ir::{Act, Call, Code, CodeDraft, Counts, Kind, Op, Operands, Ops, Reg, Routine};
use std::alloc::Global;
use std::sync::Arc;

const HELD: Reg = Reg {
    kind: Kind::LocalInit,
    offset: 0,
};

const HELD_BEHIND: Reg = Reg {
    kind: Kind::LocalInit,
    offset: 1,
};

const CHANGING: Reg = Reg {
    kind: Kind::LocalControl,
    offset: 0,
};

/// The acts of these codes. A static holds no `Act`, since one may hold a `Num`.
#[derive(Clone, Copy)]
pub enum Plain {
    Copy,
    Neg,
    /// A jump to the first step.
    Back,
    /// A jump to the end.
    On,
    /// The routine of a number, whose held values begin at another.
    Invoke(u32, u32),
}

/// A step: what it does, into which register, from which.
#[derive(Clone, Copy)]
pub struct Row {
    does: Plain,
    into: Reg,
    from: &'static [Reg],
}

/// A code with one held value and one that changes: its name, the steps of a routine that it may invoke, and its own.
#[derive(Clone, Copy)]
pub struct Case {
    pub what: &'static str,
    routine: &'static [Row],
    rows: &'static [Row],
}

fn act_of(plain: Plain) -> Act
    ensures { is_unaimed result ≡ true }
{
    match plain {
        Plain::Copy | Plain::Invoke(_, _) => Act::Copy,
        Plain::Neg => Act::Neg,
        Plain::Back | Plain::On => Act::Jump(0),
    }
}

fn op_of(alloc: Global, row: &Row) -> Result<Op, OutOfMemory>
    ensures { IfOk result (λ op. is_unaimed op.act ≡ true) }
{
    let mut from = Vec::new(alloc);
    from.extend_from_slice(row.from)?;
    Ok(Op {
        act: act_of(row.does),
        into: row.into,
        from: Operands::from_vec(from),
    })
}

fn call_of(routine: u32, begin: u32) -> Call {
    Call {
        routine,
        locals: PerRate {
            init: begin,
            control: 0,
            audio: 0,
        },
        kept: 0,
        unit: 0,
    }
}

fn push_row(draft: &mut CodeDraft<'_>, alloc: Global, row: &Row) -> Result<(), OutOfMemory>
    ensures { OnOk result (library_of draft.new ≡ library_of draft.old) }
{
    match &row.does {
        Plain::Invoke(routine, begin) => draft.invoke(call_of(*routine, *begin))?,
        Plain::On => {
            let mark = draft.push(op_of(alloc, row)?)?;
            draft.aim(mark);
        }
        _ => {
            let _ = draft.push(op_of(alloc, row)?)?;
        }
    }
    Ok(())
}

fn routine_of(alloc: Global, routines: &[Routine], rows: &[Row]) -> Result<Routine, OutOfMemory>
    requires { AreRoutines routines.now }
    ensures { IfOk result (λ r. IsRoutineOf (library_in routines.now) r) }
{
    let mut draft = CodeDraft::new(alloc, routines);
    for row in rows {
        push_row(&mut draft, alloc, row)?;
    }
    draft.end()
}

// Returns the counts of a code that has one held value and one that changes.
fn counts(alloc: Global) -> Result<Counts, OutOfMemory> {
    let named = routine_of(alloc, &[], &[COPY])?;
    let none = Arc::new(alloc, Vec::new(alloc))?;
    Ok(Counts {
        registers: Ops::new(none, named).limits(),
        units: 0,
    })
}

fn ops_of(alloc: Global, case: &Case) -> Result<Ops, OutOfMemory> {
    let mut routines = Vec::new(alloc);
    routines.push(routine_of(alloc, &[], case.routine)?)?;
    let body = routine_of(alloc, &routines, case.rows)?;
    Ok(Ops::new(Arc::new(alloc, routines)?, body))
}

fn code_of(alloc: Global, case: &Case) -> Result<Code, OutOfMemory> {
    let counts = counts(alloc)?;
    Ok(Code {
        ops: ops_of(alloc, case)?,
        counts,
    })
}

/// Returns the number of steps of a code that is handed back, or none for one that can be run. None if memory runs out.
pub fn handed_back(alloc: Global, case: &Case) -> Option<Option<usize>> {
    let Ok(code) = code_of(alloc, case) else {
        return None;
    };
    match code.check() {
        Ok(_) => Some(None),
        Err(code) => Some(Some(code.ops.parts().1.len())),
    }
}

// Copies the held value into the one that changes.
const COPY: Row = Row {
    does: Plain::Copy,
    into: CHANGING,
    from: &[HELD],
};

// Writes the negative of the held value into the one that changes.
const NEG: Row = Row {
    does: Plain::Neg,
    into: CHANGING,
    from: &[HELD],
};

const BACK: Row = Row {
    does: Plain::Back,
    into: HELD,
    from: &[],
};

const ON: Row = Row {
    does: Plain::On,
    into: CHANGING,
    from: &[],
};

// Invokes the first routine, whose held value is the first one.
const INVOKE: Row = Row {
    does: Plain::Invoke(0, 0),
    into: HELD,
    from: &[],
};

// Invokes the first routine, whose held value would be a second one.
const INVOKE_BEHIND: Row = Row {
    does: Plain::Invoke(0, 1),
    into: HELD,
    from: &[],
};

// Invokes a routine that isn't there.
const INVOKE_NONE: Row = Row {
    does: Plain::Invoke(1, 1),
    into: HELD,
    from: &[],
};

const COPY_BEHIND: Row = Row {
    does: Plain::Copy,
    into: HELD_BEHIND,
    from: &[HELD],
};

const COPY_CHANGING: Row = Row {
    does: Plain::Copy,
    into: HELD,
    from: &[CHANGING],
};

const NEG_OF_TWO: Row = Row {
    does: Plain::Neg,
    into: HELD,
    from: &[HELD, HELD],
};

pub static CASES: [Case; 12] = [
    Case {
        what: "no step",
        routine: &[],
        rows: &[],
    },
    Case {
        what: "a negative, and a jump to the end",
        routine: &[],
        rows: &[NEG, ON],
    },
    Case {
        what: "a jump to itself",
        routine: &[],
        rows: &[BACK],
    },
    Case {
        what: "a register after all",
        routine: &[],
        rows: &[COPY_BEHIND],
    },
    Case {
        what: "a held value of one that changes",
        routine: &[],
        rows: &[COPY_CHANGING],
    },
    Case {
        what: "a negative of two",
        routine: &[],
        rows: &[NEG_OF_TWO],
    },
    Case {
        what: "a jump back",
        routine: &[],
        rows: &[COPY, BACK],
    },
    Case {
        what: "a routine twice, with a jump in it",
        routine: &[ON, NEG],
        rows: &[INVOKE, INVOKE],
    },
    Case {
        what: "a routine whose held value is after all",
        routine: &[NEG],
        rows: &[INVOKE_BEHIND],
    },
    Case {
        what: "a jump back in a routine",
        routine: &[COPY, BACK],
        rows: &[COPY, INVOKE],
    },
    Case {
        what: "a routine without steps",
        routine: &[],
        rows: &[INVOKE_BEHIND],
    },
    Case {
        what: "a routine that isn't there",
        routine: &[],
        rows: &[INVOKE_NONE],
    },
];
