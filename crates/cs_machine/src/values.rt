// What a note receives besides its registers: p-fields, and the values of the header.
ghost use Rattle.std.specs.Prelude.{◌≡◌, ◌≤◌, ◌*◌, ◌-◌, pos};
ghost use Rattle.cs_meaning.specs.Pieces.{head_value};
ghost use Rattle.cs_signal.specs.Operands.{argument};
ghost use Rattle.cs_typed.specs.TypedTree.{header_of_head};

use cs_base::{Head, Num};
use cs_words::HeadName;

/// Returns a p-field by its number, counted from p1, or 0 after the last one.
#[inline(always)]
pub fn field_of(fields: &[Num], field: u32) -> Num
    ensures { result ≡ argument fields.now (field - 1) }
{
    match fields.get((field as usize).saturating_sub(1)) {
        Some(value) => *value,
        None => Num::exact(0),
    }
}

/// Returns a value of the header.
pub fn head_value(head: &Head, name: HeadName) -> Num
    ensures { result ≡ head_value (header_of_head head.now) name }
{
    match name {
        HeadName::Sr => whole(head.sr),
        HeadName::Kr => whole(head.sr).div(whole(head.ksmps)),
        HeadName::Ksmps => whole(head.ksmps),
        HeadName::Nchnls => whole(head.nchnls),
        HeadName::Dbfs => head.dbfs,
    }
}

fn whole(number: u32) -> Num
    requires { number ≤ 192000 }
    ensures { result ≡ pos (number * 65536) }
{
    Num::of_whole(i64::from(number))
}
