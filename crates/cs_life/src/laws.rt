// What the performer of the notes relies on: calls that do nothing as they run, whose contracts are the laws.
ghost use Rattle.std.specs.{Prelude.◌≡◌, Prelude.◌≤◌, Prelude.ℕ, Prelude.List, Prelude.length, List.All};
ghost use Rattle.cs_base.specs.Limits.{most_notes};
ghost use Rattle.cs_cells.specs.{Cells.Cells, Serial.serial_cells, Serial.serial_jobs, Areas.IsFootprint};
ghost use Rattle.cs_piece_meaning.specs.Course.{begins, moment_at, performed};
ghost use Rattle.cs_piece_meaning.specs.{Heard.mix_in, Moments.Composition, Moments.Moment};
ghost use Rattle.cs_life.specs.{Standing.StandsFor, declared.life.Life.Life};
ghost use Rattle.cs_voice.specs.{Mixing.mixed, Mixing.shape, VoiceData.VoiceData, VoiceMeaning.voice_job};

use cs_voice::voices_perform;

/// For the prover: the serial run of the voices of a moment, on its cells, is the performance of the cycle.
pub fn serial_runs_perform()
    ensures performed { (c : Composition) (life : Life) (voices : List VoiceData) (cells : Cells) (m : Moment)
        → StandsFor c life voices cells m
        → StandsFor c life (serial_jobs voice_job voices cells) (serial_cells voice_job voices cells) (performed c m) }
    // The voices of a moment can be run together: they have the same zones, and each has a footprint in terms
    // of them.
    ensures layouts { (c : Composition) (life : Life) (voices : List VoiceData) (cells : Cells) (m : Moment)
        → StandsFor c life voices cells m
        → All (λ (v : VoiceData). v.zones ≡ life.stage.zones.now) voices }
    ensures footprints { (c : Composition) (life : Life) (voices : List VoiceData) (cells : Cells) (m : Moment)
        → StandsFor c life voices cells m
        → All (λ (v : VoiceData). IsFootprint (length life.stage.zones.now) v.foot) voices }
    ensures few { (c : Composition) (life : Life) (voices : List VoiceData) (cells : Cells) (m : Moment)
        → StandsFor c life voices cells m
        → length voices ≤ most_notes }
{
    voices_perform();
}

/// For the prover: the sum of the voices of a cycle is what is heard of it.
pub fn voices_are_heard()
    ensures heard { (c : Composition) (life : Life) (voices : List VoiceData) (cells : Cells) (n : ℕ)
        → StandsFor c life voices cells (performed c (begins c n (moment_at c n)))
        → mixed c.head.ksmps c.head.nchnls voices ≡ mix_in c n }
    // What the sum of voices requires, and the bound on the number of notes.
    ensures shapes { (c : Composition) (life : Life) (voices : List VoiceData) (cells : Cells) (m : Moment)
        → StandsFor c life voices cells m
        → All (λ (v : VoiceData). shape v ≡ (c.head.ksmps, c.head.nchnls)) voices }
    ensures notes { (c : Composition) (life : Life) (voices : List VoiceData) (cells : Cells) (m : Moment)
        → StandsFor c life voices cells m
        → length voices ≡ length m.active }
{}
