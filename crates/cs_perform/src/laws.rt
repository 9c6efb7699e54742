// What holds for performances: calls that do nothing as they run, whose contracts are the laws.
ghost use Rattle.std.specs.Prelude.{◌≡◌, ◌≤◌, ◌+◌, ℕ};
ghost use Rattle.cs_base.specs.{declared.head.Head.Head, declared.width.SampleWidth.SampleWidth};
ghost use Rattle.cs_desk.specs.declared.receipt.Tally.{Tally};
ghost use Rattle.cs_piece_meaning.specs.{Heard.frames_of, Heard.notes_before, Moments.Composition};
ghost use Rattle.cs_edge.specs.Told.{IsFront};
ghost use Rattle.cs_perform.specs.Counted.{AreHeardBefore, CountsOn, IsTallyOf, Receipts};
ghost use Rattle.cs_perform.specs.Performances.{file_after};
ghost use Rattle.cs_wav.specs.Wav.{wav_of};

/// For the prover: the file after any number of cycles is a prefix of the complete file.
pub fn early_stops_are_fronts()
    ensures { (c : Composition) (head : Head) (width : SampleWidth) (n : ℕ) → n ≤ c.cycles
        → IsFront (file_after c head width n) (wav_of (frames_of c) head width) }
{}

/// For the prover: a tally that counts the receipts of the first cycles of a piece has grown by the number of
/// these cycles, and by the number of notes that are performed in them.
pub fn tallies_count_cycles_and_notes()
    ensures { (c : Composition) (n : ℕ) (before now : Tally) (earlier receipts : Receipts) → IsTallyOf earlier before
        → AreHeardBefore c n receipts → CountsOn (λ t counted. IsTallyOf counted t) before now receipts
        → (now.cycles ≡ before.cycles + n) × (now.notes ≡ before.notes + notes_before c n) }
{}
