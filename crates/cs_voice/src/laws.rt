// What holds for every voice: a call that does nothing as it runs, whose contract is the law.
ghost use Rattle.cs_cells.specs.Cells.{Cells};
ghost use Rattle.cs_voice_meaning.specs.Voices.{Sheet};
ghost use Rattle.cs_voice.specs.{VoiceData.VoiceData, VoiceData.IsOn, VoiceMeaning.IsVoice, VoiceMeaning.Performs};

/// For the prover: a run of a voice is a cycle of the voice of the definitions, with any sheet that it plays
/// from, and leaves a voice that plays from that sheet.
pub fn voices_perform()
    ensures { (s : Sheet) (d : VoiceData) (c : Cells) → IsOn s d → IsVoice d → Performs s d c }
{}
