// Compiling the texts of a source.
ghost use Rattle.std.specs.Prelude.{◌≡◌, ◌≤◌, Err, IfOk, Ok, length, nat_lt};
ghost use Rattle.cs_base.specs.Limits.{most_csd_bytes};
ghost use Rattle.cs_base.specs.declared.fault.Or.TheVariants as or;
ghost use Rattle.cs_piece.specs.Setups.{composition_of};
ghost use Rattle.cs_source.specs.{Loaded.FitsFile, Meaning.FileMeans, Meaning.PartsMean, inner.Read.MeansAsRead};
ghost use Rattle.cs_csd.specs.Sections.{Reading};
ghost use Rattle.cs_base.specs.declared.refusal.Refusal.{Refusal};

use crate::csd::excerpt_of;
use crate::source::SourceText;
use cs_base::{Excerpt, Limit, MOST_CSD_BYTES, Or, Refusal, SampleWidth};
use cs_compile::compile;
use cs_csd::{Parts, parts_begin_on_their_lines, split_csd};
use cs_piece::Setup;
use std::alloc::Global;

/// Returns everything that the piece of the texts needs to be performed, in samples of width `width`, or
/// their first refusal.
pub fn compile_source(
    alloc: Global,
    source: &SourceText,
    width: SampleWidth,
) -> Result<Setup, Or<Refusal>>
    ensures piece { IfOk result (λ s. MeansAsRead width source.now (Ok (composition_of s))) }
    ensures within { IfOk result (λ s. FitsFile width s) }
    ensures refused { (r : Refusal) → result ≡ Err (or.Fault r) → MeansAsRead width source.now (Err r) }
{
    match source {
        SourceText::Pair { orchestra, score } => {
            let orchestra = Excerpt::whole_file(orchestra);
            let score = Excerpt::whole_file(score);
            compile(alloc, &orchestra, &score, width)
        }
        SourceText::Csd { text } => compile_file(alloc, text, width),
    }
}

// Does the same for one file with both texts.
fn compile_file(alloc: Global, text: &[u8], width: SampleWidth) -> Result<Setup, Or<Refusal>>
    ensures piece { IfOk result (λ s. FileMeans (nat_lt most_csd_bytes (length text.now)) width text.now
        (Ok (composition_of s))) }
    ensures within { IfOk result (λ s. FitsFile width s) }
    ensures refused { (r : Refusal) → result ≡ Err (or.Fault r)
        → FileMeans (nat_lt most_csd_bytes (length text.now)) width text.now (Err r) }
{
    if text.len() > MOST_CSD_BYTES {
        let refusal = Refusal::passed(Limit::CsdBytes);
        return Err(Or::Fault(refusal));
    }
    match split_csd(text) {
        Ok(parts) => compile_parts(alloc, text, parts, width),
        Err(fault) => Err(Or::Fault(Refusal::Csd(fault))),
    }
}

// Does the same for a file whose tags were read.
fn compile_parts(
    alloc: Global,
    text: &[u8],
    parts: Parts,
    width: SampleWidth,
) -> Result<Setup, Or<Refusal>>
    requires small { length text.now ≤ most_csd_bytes }
    requires read { Reading text.now (Ok parts) }
    ensures piece { IfOk result (λ s. PartsMean width text.now (Ok parts) (Ok (composition_of s))) }
    ensures within { IfOk result (λ s. FitsFile width s) }
    ensures refused { (r : Refusal) → result ≡ Err (or.Fault r) → PartsMean width text.now (Ok parts) (Err r) }
{
    parts_begin_on_their_lines();
    let orchestra = excerpt_of(text, parts.orc);
    let score = excerpt_of(text, parts.sco);
    compile(alloc, &orchestra, &score, width)
}
