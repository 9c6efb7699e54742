// A text of a shelf, read to its end or up to a limit.
ghost use Rattle.std.specs.Prelude.{◌≡◌, ◌≤◌, ◌<◌, ◌⊎◌, [], length, Err, IfOk, OnOk, IsErrOf};
ghost use Rattle.cs_base.specs.declared.fault.Or.TheVariants as or;
ghost use Rattle.cs_edge.specs.{declared.moves.Move.TheVariants.Read, Told.Follows, Told.Rose, Files.Lacks};
ghost use Rattle.cs_edge.specs.Moves.{Grown, GrownBy, AreAll, IsRun};
ghost use Rattle.cs_source.specs.inner.Reading.{IsFrontOf, IsTextOf, LeavesRest, ReadOnce};

use cs_base::Or;
use cs_edge::{Failed, Shelf};
use std::alloc::Global;

/// Returns the first bytes of the file named `name`, at most `most`, or an error with the name if the shelf
/// failed or lacks it.
pub fn read_text<'a, F: Shelf>(
    alloc: Global,
    shelf: &mut F,
    name: &'a str,
    most: usize,
) -> Result<Vec<u8>, Or<&'a str>>
    ensures text { IfOk result (λ text. IsTextOf most (F.tells shelf.old).files name.now text.items) }
    ensures most { IfOk result (λ text. length text.items ≤ most) }
    // No more was read.
    ensures rest { IfOk result (λ _. LeavesRest most (F.tells shelf.old).files name.now (F.tells shelf.new).left) }
    ensures fault { (unread : _) → result ≡ Err (or.Fault unread) → (unread.now ≡ name.now)
        × (Rose (F.tells shelf.old).faults (F.tells shelf.new).faults ⊎ Lacks (F.tells shelf.old).files name.now) }
    ensures later { (F.tells shelf.old).faults ≤ (F.tells shelf.new).faults }
    ensures calm { OnOk result ((F.tells shelf.new).faults ≡ (F.tells shelf.old).faults) }
    ensures starved { IsErrOf result or.OutOfMemory → (F.tells shelf.new).faults ≡ (F.tells shelf.old).faults }
    ensures moves { Follows (F.tells shelf.old).moves (F.tells shelf.new).moves (Grown (IsRun name.now Read)) }
    ensures files { (F.tells shelf.new).files ≡ (F.tells shelf.old).files }
{
    let Ok(true) = shelf.begin(name) else {
        return Err(Or::Fault(name));
    };
    let mut text = Vec::new(alloc);
    match fill(shelf, &mut text, most) {
        Ok(()) => Ok(text),
        Err(Or::Fault(Failed)) => Err(Or::Fault(name)),
        Err(Or::OutOfMemory) => Err(Or::OutOfMemory),
    }
}

// Reads until the text has `most` bytes or the input ends.
fn fill<F: Shelf>(shelf: &mut F, text: &mut Vec<u8>, most: usize) -> Result<(), Or<Failed>>
    requires { text.old.items ≡ [] }
    ensures front { OnOk result (IsFrontOf most (F.tells shelf.old).left text.new.items (F.tells shelf.new).left) }
    ensures most { OnOk result (length text.new.items ≤ most) }
    ensures fault { (f : _) → result ≡ Err (or.Fault f) → Rose (F.tells shelf.old).faults (F.tells shelf.new).faults }
    ensures later { (F.tells shelf.old).faults ≤ (F.tells shelf.new).faults }
    ensures calm { OnOk result ((F.tells shelf.new).faults ≡ (F.tells shelf.old).faults) }
    ensures starved { IsErrOf result or.OutOfMemory → (F.tells shelf.new).faults ≡ (F.tells shelf.old).faults }
    ensures moves { Follows (F.tells shelf.old).moves (F.tells shelf.new).moves (Grown (AreAll Read)) }
    ensures files { (F.tells shelf.new).files ≡ (F.tells shelf.old).files }
{
    while text.len() < most {
        let more = most - text.len();
        match read_block(shelf, text, more) {
            Ok(true) => {}
            Ok(false) => return Ok(()),
            Err(fault) => return Err(fault),
        }
    }
    Ok(())
}

// The highest number of bytes of one read.
const BLOCK: usize = 4_096;

// Reads once: appends the bytes read to the text, at most `most`, and returns whether there were any.
fn read_block<F: Shelf>(shelf: &mut F, text: &mut Vec<u8>, most: usize) -> Result<bool, Or<Failed>>
    requires { 0 < most }
    ensures read { IfOk result (λ more. ReadOnce (F.tells shelf.old)
        (F.tells shelf.new) most text.old.items text.new.items more) }
    ensures fault { (f : _) → result ≡ Err (or.Fault f) → Rose (F.tells shelf.old).faults (F.tells shelf.new).faults }
    ensures later { (F.tells shelf.old).faults ≤ (F.tells shelf.new).faults }
    ensures calm { OnOk result ((F.tells shelf.new).faults ≡ (F.tells shelf.old).faults) }
    ensures starved { IsErrOf result or.OutOfMemory → (F.tells shelf.new).faults ≡ (F.tells shelf.old).faults }
    ensures moves { Follows (F.tells shelf.old).moves (F.tells shelf.new).moves (GrownBy Read) }
    ensures files { (F.tells shelf.new).files ≡ (F.tells shelf.old).files }
{
    let mut block = [0u8; BLOCK];
    let count = match shelf.read(&mut block[..most.min(BLOCK)]) {
        Ok(count) => count,
        Err(failed) => return Err(Or::Fault(failed)),
    };
    text.extend_from_slice(&block[..count])?;
    Ok(count > 0)
}
