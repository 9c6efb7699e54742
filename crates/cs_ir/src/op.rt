// Ops: the instructions of a note's code, which are performed one after another.
use crate::{Counts, Operands, Ops, Reg};
use cs_base::{Num, Res};
use cs_words::{BinOp, Func, HeadName, Opcode};

/// The tables, or the places of a zak space, that an op may touch, by their numbers.
#[derive(Clone, Copy)]
pub enum Reach {
    Nothing,
    /// From the first number to the last, both included.
    Span(u32, u32),
    Any,
}

/// The action of an op on its operands.
#[derive(Clone, Copy)]
pub enum Act {
    /// Yields a constant.
    Const(Num),
    /// Yields a p-field.
    Field(u32),
    /// Yields a value of the header.
    Head(HeadName),
    /// Yields its operand.
    Copy,
    /// Yields the negative of its operand.
    Neg,
    /// Yields the result of an operator on its two operands.
    Pair(BinOp),
    /// Yields the second operand if the first one holds, otherwise the third.
    Pick,
    /// Yields the result of a function of its operand.
    Call(Func),
    /// Reads a shared resource.
    Load(Res),
    /// Writes its operand to a shared resource.
    Save(Res),
    /// Starts the unit with this number. The operands are the values of its i-rate arguments.
    Start(Opcode, u32),
    /// Runs the unit with this number over a cycle.
    Unit(Opcode, u32, Reach),
    /// Refuses the note if no table has the number that its operand has when the note begins.
    Seek,
    /// Stores its first operand into a table. The second operand is the index, the third the table's number.
    Store(Reach),
    /// Reads, writes, mixes or clears zak places.
    Zak(Opcode, Reach),
    /// Continues at a later op.
    Jump(usize),
    /// Continues at a later op if its operand doesn't hold.
    Unless(usize),
    /// Adds its operand to an output channel, counted from 0.
    Out(usize),
    /// Adds its second operand to the channel whose number is the first operand, counted from 1.
    OutAt,
    /// Ends the note after this cycle.
    Turnoff,
    /// Schedules a note. The operands are its instrument, its start, its length, and further p-fields.
    Ask,
}

// Codes may be long, so the size of an op matters: it is one cache line.
const _: () = prove!(size_of::<Op>() == 64);

/// An op. `into` is the register that it writes, if its act writes one. For a unit and a store, its kind also
/// determines the rate.
#[derive(Drop)]
pub struct Op {
    pub act: Act,
    pub into: Reg,
    pub from: Operands,
}

/// A code: ops in order, and the numbers of registers and units that they may use.
#[derive(Drop)]
pub struct Code {
    pub ops: Ops,
    pub counts: Counts,
}
