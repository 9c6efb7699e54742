// What holds for every two runs, and for every run whose texts are known: calls that do nothing as they run,
// whose contracts are the laws. Their meters only supply the type of the runs' meters.
ghost use Rattle.std.specs.Prelude.{◌≡◌, ◌≢◌, ◌⊎◌, ℕ, true, false, List, Some, None, Ok, Err};
ghost use Rattle.cs_base.specs.declared.width.SampleWidth.{SampleWidth};
ghost use Rattle.cs_piece_meaning.specs.Moments.{Composition};
ghost use Rattle.cs_edge.specs.{Moves.Held, Told.Rose};
ghost use Rattle.cs_play.specs.Alike.{AreTexts, AskAlike, HadNoFault, SoundAlike, TellAlike};
ghost use Rattle.cs_play.specs.{Page.Ends, Preparing.Reads, Report.meter_lines, Runs.IsProgramRun, Runs.told_in};
ghost use Rattle.cs_play.specs.{Scene.Scene, Scene.sight, Sounds.HoldsSoundFront};
ghost use Rattle.cs_report.specs.{Status.refusal, declared.status.Status.Status};
ghost use Rattle.cs_report.specs.declared.status.Status.TheVariants as status;
ghost use Rattle.cs_arguments.specs.Reading.{Asked, Text, reading};
ghost use Rattle.cs_source.specs.{Meaning.Mean, Sounds.IsSoundOf, Texts.LackWhereTold, Texts.Texts};
ghost use Rattle.cs_base.specs.declared.refusal.Refusal.{Refusal};

use cs_edge::{Shelf, Sink, Tap};
use cs_perform::{Counter, early_stops_are_fronts};
use cs_source::{
    files_have_one_pair_of_texts, texts_of_a_source_mean_one, told_files_have_texts_or_lack_a_name,
};

/// For the prover: texts have either exactly one sound or exactly one first refusal, and never both, in
/// samples of either width.
pub fn texts_have_one_sound_or_refusal()
    ensures some { (t : Texts) (width : SampleWidth)
        → ((bytes : List ℕ) × IsSoundOf t width bytes) ⊎ ((r : Refusal) × Mean width t (Err r)) }
    ensures one_sound { (t : Texts) (width : SampleWidth) (a b : List ℕ) → IsSoundOf t width a → IsSoundOf t width b
        → a ≡ b }
    ensures one_refusal { (t : Texts) (width : SampleWidth) (r s : Refusal) → Mean width t (Err r)
        → Mean width t (Err s) → r ≡ s }
    ensures never_both { (t : Texts) (width : SampleWidth) (bytes : List ℕ) (r : Refusal) → IsSoundOf t width bytes
        → Mean width t (Err r) → ⊥ }
{
    texts_of_a_source_mean_one();
}

/// THE PAGE. For the prover: the result of every run is on one page (`Ends`, specs/Page), in terms of what
/// its objects tell, whether they are real files, which tell only how often a call on them failed, or objects
/// that tell everything.
pub fn runs_are_as_the_page_says<F: Shelf, K: Sink, T: Sink, C: Counter>(_taps: &[Box<dyn Tap>])
    ensures { (words : List Text) (s : Status) (before now : Scene F K T _ C)
        → IsProgramRun (sight F.tells K.tells T.tells C.has_counted (λ t h. stands_for t h)
        (λ t room. text t room)) words s before now
        → Ends words (meter_lines (λ t room. text t room) now.taps)
        (told_in (sight F.tells K.tells T.tells C.has_counted (λ t h. stands_for t h) (λ t room. text t room)) before)
        (told_in (sight F.tells K.tells T.tells C.has_counted (λ t h. stands_for t h) (λ t room. text t room)) now) s }
{
    early_stops_are_fronts();
}

/// For the prover: if a count of faults rose, that decides the end, whatever else happened: a fault of the
/// shelf ends the run with ShelfFault, a fault of the sound file with SinkFault, and after a fault of `talk`
/// the run isn't Ok.
pub fn failures_decide<F: Shelf, K: Sink, T: Sink, C: Counter>(_taps: &[Box<dyn Tap>])
    ensures shelf { (words : List Text) (s : Status) (before now : Scene F K T _ C)
        → IsProgramRun (sight F.tells K.tells T.tells C.has_counted (λ t h. stands_for t h)
        (λ t room. text t room)) words s before now
        → (F.tells now.shelf).faults ≢ (F.tells before.shelf).faults → s ≡ status.ShelfFault }
    ensures wav { (words : List Text) (s : Status) (before now : Scene F K T _ C)
        → IsProgramRun (sight F.tells K.tells T.tells C.has_counted (λ t h. stands_for t h)
        (λ t room. text t room)) words s before now
        → (K.tells now.wav).faults ≢ (K.tells before.wav).faults → s ≡ status.SinkFault }
    ensures talk { (words : List Text) (s : Status) (before now : Scene F K T _ C)
        → IsProgramRun (sight F.tells K.tells T.tells C.has_counted (λ t h. stands_for t h)
        (λ t room. text t room)) words s before now
        → (T.tells now.talk).faults ≢ (T.tells before.talk).faults → s ≢ status.Ok }
{
    early_stops_are_fronts();
}

/// THE HEADLINE. For the prover: suppose that the texts of a run are known (from the files that the shelf
/// tells, or the demo's) and that the sound file tells its contents. After Ok it contains the sound of the
/// texts, under the name in the arguments, and was ended, unless silence is asked for. After any status it
/// contains what it contained before, or nothing if it couldn't be opened, or a prefix of the sound of the
/// texts.
pub fn sound_files_hold_sounds<F: Shelf, K: Sink, T: Sink, C: Counter>(_taps: &[Box<dyn Tap>])
    ensures ok { (words : List Text) (before now : Scene F K T _ C) (asked : Asked) (t : Texts) (held : Held)
        → IsProgramRun (sight F.tells K.tells T.tells C.has_counted (λ t h. stands_for t h)
        (λ t room. text t room)) words status.Ok before now
        → reading words ≡ Some asked → AreTexts (F.tells before.shelf).files asked.piece t
        → (K.tells now.wav).held ≡ Some held → asked.silent ≡ false
        → (held.name ≡ Some asked.sound_file) × (held.ended ≡ true) × IsSoundOf t asked.width held.bytes }
    ensures front { (words : List Text) (s : Status) (before now : Scene F K T _ C) (asked : Asked) (t : Texts)
        (held : Held)
        → IsProgramRun (sight F.tells K.tells T.tells C.has_counted (λ t h. stands_for t h)
        (λ t room. text t room)) words s before now
        → reading words ≡ Some asked → AreTexts (F.tells before.shelf).files asked.piece t
        → (K.tells now.wav).held ≡ Some held → HoldsSoundFront t asked (K.tells before.wav).held held }
{
    files_have_one_pair_of_texts();
    early_stops_are_fronts();
}

/// For the prover: suppose that the arguments of two runs ask for the same piece and the same width, and that
/// their shelves tell the same files, or the piece is the demo. If both end Ok, they performed the same
/// composition, which their texts mean, each has printed its report, and their sound files are the same byte
/// for byte. If nothing failed and memory sufficed in both, they end with the same status.
pub fn alike_runs_agree<
    F: Shelf,
    K: Sink,
    T: Sink,
    C: Counter,
    F2: Shelf,
    K2: Sink,
    T2: Sink,
    C2: Counter,
>(_taps: &[Box<dyn Tap>])
    ensures bytes { (words others : List Text) (a b : Asked) (before now : Scene F K T _ C)
        (before_2 now_2 : Scene F2 K2 T2 _ C2)
        → reading words ≡ Some a → reading others ≡ Some b → AskAlike a b
        → TellAlike a.piece (F.tells before.shelf).files (F2.tells before_2.shelf).files
        → IsProgramRun (sight F.tells K.tells T.tells C.has_counted (λ t h. stands_for t h)
        (λ t room. text t room)) words status.Ok before now
        → IsProgramRun (sight F2.tells K2.tells T2.tells C2.has_counted (λ t h. stands_for t h)
        (λ t room. text t room)) others status.Ok before_2 now_2
        → SoundAlike (sight F.tells K.tells T.tells C.has_counted (λ t h. stands_for t h) (λ t room. text t room))
        (sight F2.tells K2.tells T2.tells C2.has_counted (λ t h. stands_for t h)
        (λ t room. text t room)) a b before now before_2 now_2 }
    ensures ends { (words others : List Text) (s s_2 : Status) (a b : Asked) (before now : Scene F K T _ C)
        (before_2 now_2 : Scene F2 K2 T2 _ C2)
        → reading words ≡ Some a → reading others ≡ Some b → AskAlike a b
        → TellAlike a.piece (F.tells before.shelf).files (F2.tells before_2.shelf).files
        → IsProgramRun (sight F.tells K.tells T.tells C.has_counted (λ t h. stands_for t h)
        (λ t room. text t room)) words s before now
        → IsProgramRun (sight F2.tells K2.tells T2.tells C2.has_counted (λ t h. stands_for t h)
        (λ t room. text t room)) others s_2 before_2 now_2
        → HadNoFault (sight F.tells K.tells T.tells C.has_counted (λ t h. stands_for t h)
        (λ t room. text t room)) before now
        → HadNoFault (sight F2.tells K2.tells T2.tells C2.has_counted (λ t h. stands_for t h)
        (λ t room. text t room)) before_2 now_2
        → s ≢ status.OutOfMemory → s_2 ≢ status.OutOfMemory → s ≡ s_2 }
{
    texts_of_a_source_mean_one();
    files_have_one_pair_of_texts();
    told_files_have_texts_or_lack_a_name();
}

/// For the prover: arguments without a reading get the usage line, unless memory runs out.
pub fn words_decide<F: Shelf, K: Sink, T: Sink, C: Counter>(_taps: &[Box<dyn Tap>])
    ensures { (words : List Text) (s : Status) (before now : Scene F K T _ C)
        → IsProgramRun (sight F.tells K.tells T.tells C.has_counted (λ t h. stands_for t h)
        (λ t room. text t room)) words s before now
        → reading words ≡ None → (s ≡ status.Usage) ⊎ (s ≡ status.OutOfMemory) }
{}

/// For the prover: if the shelf tells that it lacks a name that is opened, the run ends with that, unless
/// memory runs out.
pub fn lacking_decides<F: Shelf, K: Sink, T: Sink, C: Counter>(_taps: &[Box<dyn Tap>])
    ensures { (words : List Text) (s : Status) (before now : Scene F K T _ C)
        → IsProgramRun (sight F.tells K.tells T.tells C.has_counted (λ t h. stands_for t h)
        (λ t room. text t room)) words s before now
        → Reads words (λ asked. (name : List ℕ) × LackWhereTold (F.tells before.shelf).files asked.piece name)
        → (s ≡ status.ShelfFault) ⊎ (s ≡ status.OutOfMemory) }
{
    told_files_have_texts_or_lack_a_name();
}

/// For the prover: if the texts are known and refused, and the shelf didn't fail, the run ends with the
/// refusal, unless memory runs out.
pub fn refusals_decide<F: Shelf, K: Sink, T: Sink, C: Counter>(_taps: &[Box<dyn Tap>])
    ensures { (words : List Text) (s : Status) (before now : Scene F K T _ C) (asked : Asked) (t : Texts) (r : Refusal)
        → IsProgramRun (sight F.tells K.tells T.tells C.has_counted (λ t h. stands_for t h)
        (λ t room. text t room)) words s before now
        → reading words ≡ Some asked → AreTexts (F.tells before.shelf).files asked.piece t → Mean asked.width t (Err r)
        → ¬ (Rose (F.tells before.shelf).faults (F.tells now.shelf).faults)
        → (s ≡ refusal r) ⊎ (s ≡ status.OutOfMemory) }
{
    texts_of_a_source_mean_one();
    files_have_one_pair_of_texts();
    told_files_have_texts_or_lack_a_name();
}

/// For the prover: if the texts are known and mean a composition, and neither the shelf nor a sink failed, it
/// is performed completely and reported, unless memory runs out.
pub fn sounds_decide<F: Shelf, K: Sink, T: Sink, C: Counter>(_taps: &[Box<dyn Tap>])
    ensures { (words : List Text) (s : Status) (before now : Scene F K T _ C) (asked : Asked) (t : Texts)
        (c : Composition)
        → IsProgramRun (sight F.tells K.tells T.tells C.has_counted (λ t h. stands_for t h)
        (λ t room. text t room)) words s before now
        → reading words ≡ Some asked → AreTexts (F.tells before.shelf).files asked.piece t → Mean asked.width t (Ok c)
        → ¬ (Rose (F.tells before.shelf).faults (F.tells now.shelf).faults)
        → ¬ (Rose (K.tells before.wav).faults (K.tells now.wav).faults)
        → ¬ (Rose (T.tells before.talk).faults (T.tells now.talk).faults)
        → (s ≡ status.Ok) ⊎ (s ≡ status.OutOfMemory) }
{
    texts_of_a_source_mean_one();
    files_have_one_pair_of_texts();
    told_files_have_texts_or_lack_a_name();
}
