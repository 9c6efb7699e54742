// The piece of a source, read and compiled.
ghost use Rattle.std.specs.Prelude.{◌≡◌, Err, IfOk, IsErrOf, Ok};
ghost use Rattle.cs_arguments.specs.Orders.{piece_in};
ghost use Rattle.cs_piece.specs.Setups.{composition_of};
ghost use Rattle.cs_source.specs.Loaded.{CannotRead, FitsFile, IsLoaded, WasRead};
ghost use Rattle.cs_source.specs.declared.loading.LoadFault.TheVariants as unloaded;
ghost use Rattle.cs_base.specs.declared.refusal.Refusal.{Refusal};

use crate::meaning::compile_source;
use crate::source::read_source;
use cs_arguments::Source;
use cs_base::{Or, Refusal, SampleWidth};
use cs_edge::Shelf;
use cs_piece::Setup;
use std::alloc::Global;

/// The reason why there is no piece.
#[derive(Clone, Copy)]
pub enum LoadFault<'a> {
    /// The text with this name can't be read: the shelf failed, or lacks it.
    Unread(&'a str),
    /// The texts are refused.
    Refused(Refusal),
    OutOfMemory,
}

/// Returns everything that the piece of a source needs to be performed, in samples of width `width`; or the
/// first refusal of its texts, the name that can't be read, or out of memory. Both texts are read before
/// either is refused, but the score isn't opened after an orchestra of more than 1,048,576 bytes. The demo
/// leaves the shelf as it was.
pub fn load<'a, F: Shelf>(
    alloc: Global,
    shelf: &mut F,
    source: &Source<'a>,
    width: SampleWidth,
) -> Result<Setup, LoadFault<'a>>
    ensures piece { IfOk result (λ s. IsLoaded (F.tells shelf.old) (F.tells shelf.new) width (piece_in source.now)
        (Ok (composition_of s))) }
    // The samples of the piece fit into a sound file.
    ensures within { IfOk result (λ s. FitsFile width s) }
    ensures refused { (r : Refusal) → result ≡ Err (unloaded.Refused r)
        → IsLoaded (F.tells shelf.old) (F.tells shelf.new) width (piece_in source.now) (Err r) }
    ensures unread { (name : _) → result ≡ Err (unloaded.Unread name)
        → CannotRead (F.tells shelf.old) (F.tells shelf.new) (piece_in source.now) name.now }
    // If memory ran out, no call of the shelf had failed.
    ensures starved { IsErrOf result LoadFault.OutOfMemory → (F.tells shelf.new).faults ≡ (F.tells shelf.old).faults }
    ensures shelf { WasRead (F.tells shelf.old) (F.tells shelf.new) (piece_in source.now) }
    ensures files { (F.tells shelf.new).files ≡ (F.tells shelf.old).files }
{
    let texts = match read_source(alloc, shelf, source) {
        Ok(texts) => texts,
        Err(Or::Fault(name)) => return Err(LoadFault::Unread(name)),
        Err(Or::OutOfMemory) => return Err(LoadFault::OutOfMemory),
    };
    match compile_source(alloc, &texts, width) {
        Ok(setup) => Ok(setup),
        Err(Or::Fault(refusal)) => Err(LoadFault::Refused(refusal)),
        Err(Or::OutOfMemory) => Err(LoadFault::OutOfMemory),
    }
}
