// Makes a table from its size, its GEN and its arguments.
ghost use Rattle.std.specs.Prelude.{◌≡◌, ◌≤◌, IfOk, IfErr, OnOk, None, unsigned_abs};
ghost use Rattle.cs_gen.specs.Faults.{IsCauseOf, argument, table_fault};
ghost use Rattle.cs_gen.specs.{Points.at_places, Points.plain_point, Tables.IsMade};

use crate::check::{GenFault, argument, check_table};
use crate::harmonics::harmonic_points;
use crate::normal::normalise_for;
use crate::segments::segment_points;
use cs_base::{Items, Num, Or};
use std::alloc::{AllocError, Global};

/// The points of a table, the guard point included.
pub type Points = Items<Num>;

/// Returns the points of a table, `size` of them, computed by its GEN; a positive GEN normalises. Fails with
/// the fault that `check_table` finds, or if memory runs out.
pub fn make_table(alloc: Global, size: i64, gen_: i64, args: &[Num]) -> Result<Points, Or<GenFault>>
    ensures made { IfOk result (IsMade size gen_ args.now) }
    ensures accepted { OnOk result (table_fault size gen_ args.now ≡ None) }

    // A fault is found before any memory is allocated.
    ensures refused { IfErr result (IsCauseOf (table_fault size gen_ args.now)) }
{
    if let Err(fault) = check_table(size, gen_, args) {
        return Err(Or::Fault(fault));
    }
    let mut points = plain_points(alloc, size.unsigned_abs(), gen_.unsigned_abs(), args)?;
    normalise_for(gen_, &mut points);
    Ok(Items::from_vec(points))
}

#[tactic(auto, unfolding(crate::specs::Points::plain_point))]
fn plain_points(alloc: Global, size: u64, gen_: u64, args: &[Num]) -> Result<Vec<Num>, AllocError>
    requires some { 2 ≤ size }
    requires wide { size ≤ 65537 }
    ensures { IfOk result (λ points. points.items ≡ at_places size (plain_point size gen_ args.now)) }
{
    match gen_ {
        2 => argument_points(alloc, size, args),
        7 => segment_points(alloc, size, args),
        _ => harmonic_points(alloc, size, args),
    }
}

// GEN02: the arguments themselves, followed by zeros.
fn argument_points(alloc: Global, count: u64, args: &[Num]) -> Result<Vec<Num>, AllocError>
    ensures { IfOk result (λ points. points.items ≡ at_places count (argument args.now)) }
{
    let mut points = Vec::new(alloc);
    for j in 0..count {
        points.push(argument(args, j as usize))?;
    }
    Ok(points)
}
