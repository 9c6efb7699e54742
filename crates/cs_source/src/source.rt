// The texts of a source, as far as they are read.
ghost use Rattle.std.specs.Prelude.{◌≡◌, IfErr, IfOk, IsErrOf, OnOk};
ghost use Rattle.cs_arguments.specs.{Orders.piece_in, Reading.two_files};
ghost use Rattle.cs_base.specs.declared.fault.Or.TheVariants as or;
ghost use Rattle.cs_source.specs.{Loaded.CannotRead, Loaded.LeavesUnread, Loaded.WasRead, Texts.demo_notes};
ghost use Rattle.cs_source.specs.inner.Read.{AreRead, IfFault, IsReadOf};

use crate::read::read_text;
use crate::{demo_orchestra, demo_score};
use cs_arguments::Source;
use cs_base::{MOST_CSD_BYTES, MOST_ORCHESTRA_BYTES, MOST_SCORE_BYTES, Or};
use cs_edge::Shelf;
use std::alloc::{AllocError, Global};

/// The texts of a source; each is read up to one byte past its limit, so that an overlong text can be
/// recognised.
#[derive(Drop)]
pub enum SourceText {
    /// An orchestra and a score; the score is empty if the orchestra is too long.
    Pair { orchestra: Vec<u8>, score: Vec<u8> },
    /// One file with both texts.
    Csd { text: Vec<u8> },
}

/// Reads the texts that the arguments ask for, or returns the name that can't be read.
pub fn read_source<'a, F: Shelf>(
    alloc: Global,
    shelf: &mut F,
    source: &Source<'a>,
) -> Result<SourceText, Or<&'a str>>
    ensures read { IfOk result (λ text. AreRead (F.tells shelf.old).files (piece_in source.now) text) }
    ensures rest { OnOk result (LeavesUnread (F.tells shelf.old) (F.tells shelf.new) (piece_in source.now)) }
    ensures unread { IfErr result (λ e. IfFault e (λ name. CannotRead (F.tells shelf.old) (F.tells shelf.new)
        (piece_in source.now) name.now)) }
    ensures shelf { WasRead (F.tells shelf.old) (F.tells shelf.new) (piece_in source.now) }
    ensures calm { OnOk result ((F.tells shelf.new).faults ≡ (F.tells shelf.old).faults) }
    ensures starved { IsErrOf result or.OutOfMemory → (F.tells shelf.new).faults ≡ (F.tells shelf.old).faults }
    ensures files { (F.tells shelf.new).files ≡ (F.tells shelf.old).files }
{
    match *source {
        Source::TwoFiles { orchestra, score } => read_files(alloc, shelf, orchestra, score),
        Source::OneFile { csd } => {
            let text = read_text(alloc, shelf, csd, MOST_CSD_BYTES + 1)?;
            Ok(SourceText::Csd { text })
        }
        Source::Demo { notes } => match demo_texts(alloc, notes.number()) {
            Ok(text) => Ok(text),
            Err(_) => Err(Or::OutOfMemory),
        },
    }
}

// Reads an orchestra and a score. If the orchestra is too long, the score isn't opened.
fn read_files<'a, F: Shelf>(
    alloc: Global,
    shelf: &mut F,
    orc: &'a str,
    sco: &'a str,
) -> Result<SourceText, Or<&'a str>>
    ensures read { IfOk result (λ text. AreRead (F.tells shelf.old).files (two_files orc.now sco.now) text) }
    ensures rest { OnOk result (LeavesUnread (F.tells shelf.old) (F.tells shelf.new) (two_files orc.now sco.now)) }
    ensures unread { IfErr result (λ e. IfFault e (λ name. CannotRead (F.tells shelf.old) (F.tells shelf.new)
        (two_files orc.now sco.now) name.now)) }
    ensures shelf { WasRead (F.tells shelf.old) (F.tells shelf.new) (two_files orc.now sco.now) }
    ensures calm { OnOk result ((F.tells shelf.new).faults ≡ (F.tells shelf.old).faults) }
    ensures starved { IsErrOf result or.OutOfMemory → (F.tells shelf.new).faults ≡ (F.tells shelf.old).faults }
    ensures files { (F.tells shelf.new).files ≡ (F.tells shelf.old).files }
{
    let orchestra = read_text(alloc, shelf, orc, MOST_ORCHESTRA_BYTES + 1)?;
    if orchestra.len() > MOST_ORCHESTRA_BYTES {
        let score = Vec::new(alloc);
        return Ok(SourceText::Pair { orchestra, score });
    }
    let score = read_text(alloc, shelf, sco, MOST_SCORE_BYTES + 1)?;
    Ok(SourceText::Pair { orchestra, score })
}

// Returns the texts of the demo.
fn demo_texts(alloc: Global, notes: u32) -> Result<SourceText, AllocError>
    ensures { IfOk result (λ text. IsReadOf (demo_notes notes) text) }
{
    let orchestra = demo_orchestra(alloc)?;
    let score = demo_score(alloc, notes)?;
    Ok(SourceText::Pair { orchestra, score })
}
