// What two texts mean together.
ghost use Rattle.std.specs.Prelude.{◌≡◌, ◌≤◌, ◌*◌, length, eqb, Ok, Err, IfOk};
ghost use Rattle.std.specs.List.{IsDistinct};
ghost use Rattle.cs_base.specs.Limits.{most_orchestra_bytes, most_score_bytes, most_wav_bytes};
ghost use Rattle.cs_base.specs.declared.fault.Or.TheVariants as or;
ghost use Rattle.cs_base.specs.declared.refusal.Refusal.{Refusal};
ghost use Rattle.cs_code.specs.Lowered.{all_numbers};
ghost use Rattle.cs_compile.specs.Meaning.{is_too_long, means, piece_of, short_texts_mean};
ghost use Rattle.cs_name_laws.specs.Names.{NamesWhatThereIs};
ghost use Rattle.cs_piece.specs.Setups.{AreOfOneSize, AskForFew, composition_of};
ghost use Rattle.cs_tempo.specs.Performable.{IsPerformable};
ghost use Rattle.cs_typed.specs.TypedTree as typed;
ghost use Rattle.cs_typed.specs.WellRated.{IsWellRated};
ghost use Rattle.cs_wav.specs.Wav.{size_of};

use crate::orchestra::read_orchestra;
use crate::score::read_plot;
use cs_base::{
    Excerpt, Head, Limit, MOST_ORCHESTRA_BYTES, MOST_SCORE_BYTES, MOST_WAV_BYTES, Or, Refusal,
    SampleWidth,
};
use cs_piece::Setup;
use cs_tempo::Plot;
use cs_typed::TypedOrc;
use std::alloc::Global;

/// Returns everything that the piece of two texts needs to be performed, in samples of width `width`, or the
/// first refusal of the texts, with its line in the file. A setup's samples fit into a sound file.
pub fn compile(
    alloc: Global,
    orchestra: &Excerpt,
    score: &Excerpt,
    width: SampleWidth,
) -> Result<Setup, Or<Refusal>>
    ensures accepted { IfOk result (λ s. means width orchestra.now score.now (Ok (composition_of s))) }
    ensures fits { IfOk result (λ s. size_of width
        (s.plot.cycles * s.orchestra.head.ksmps) s.orchestra.head ≤ most_wav_bytes) }
    // Only out of memory has no clause.
    ensures refused { (r : Refusal) → result ≡ Err (or.Fault r) → means width orchestra.now score.now (Err r) }
{
    if orchestra.bytes().len() > MOST_ORCHESTRA_BYTES {
        return Err(Or::Fault(Refusal::passed(Limit::OrchestraBytes)));
    }
    if score.bytes().len() > MOST_SCORE_BYTES {
        return Err(Or::Fault(Refusal::passed(Limit::ScoreBytes)));
    }
    compile_short(alloc, orchestra, score, width)
}

// Does the same for texts that are not too long.
fn compile_short(
    alloc: Global,
    orchestra: &Excerpt,
    score: &Excerpt,
    width: SampleWidth,
) -> Result<Setup, Or<Refusal>>
    requires orchestra { length orchestra.now.bytes ≤ most_orchestra_bytes }
    requires score { length score.now.bytes ≤ most_score_bytes }
    ensures accepted { IfOk result (λ s. short_texts_mean width orchestra.now score.now (Ok (composition_of s))) }
    ensures fits { IfOk result (λ s. size_of width
        (s.plot.cycles * s.orchestra.head.ksmps) s.orchestra.head ≤ most_wav_bytes) }
    ensures refused { (r : Refusal) → result ≡ Err (or.Fault r)
        → short_texts_mean width orchestra.now score.now (Err r) }
{
    let typed = read_orchestra(alloc, orchestra)?;
    let plot = read_plot(alloc, score, &typed.head)?;
    prepared(alloc, typed, plot, width)
}

// Returns what an orchestra and a plot need to be performed, or the refusal of the first limit that they
// exceed together.
fn prepared(
    alloc: Global,
    orchestra: TypedOrc,
    plot: Plot,
    width: SampleWidth,
) -> Result<Setup, Or<Refusal>>
    requires rated { IsWellRated (typed.orchestra orchestra) }
    requires distinct { IsDistinct eqb (all_numbers (typed.orchestra orchestra).instrs) }
    requires named { NamesWhatThereIs (typed.orchestra orchestra) }
    requires asks { AskForFew (typed.orchestra orchestra) }
    requires performable { IsPerformable orchestra.head plot }
    requires sizes { AreOfOneSize plot.events }
    ensures accepted { IfOk result (λ s. piece_of width (typed.orchestra orchestra) orchestra.head plot
        ≡ Ok (composition_of s)) }
    ensures fits { IfOk result (λ s. size_of width
        (s.plot.cycles * s.orchestra.head.ksmps) s.orchestra.head ≤ most_wav_bytes) }
    ensures refused { (r : Refusal) → result ≡ Err (or.Fault r)
        → piece_of width (typed.orchestra orchestra) orchestra.head plot ≡ Err r }
{
    let too_long = is_too_long(width, &orchestra.head, plot.cycles);
    let setup = Setup::new(alloc, orchestra, plot)?;
    if too_long {
        return Err(Or::Fault(Refusal::passed(Limit::WavBytes)));
    }
    Ok(setup)
}

// Returns whether the samples of a piece have more bytes than a sound file may have.
fn is_too_long(width: SampleWidth, head: &Head, cycles: u32) -> bool
    ensures { result ≡ is_too_long width head.now cycles }
{
    let frames = u64::from(cycles) * u64::from(head.ksmps);
    let samples = frames * u64::from(head.nchnls);
    samples * u64::from(width.bytes()) > MOST_WAV_BYTES
}
