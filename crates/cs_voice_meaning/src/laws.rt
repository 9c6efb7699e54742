// Facts about every voice. These functions do nothing; their contracts state the facts.
ghost use Rattle.std.specs.Prelude.{◌≡◌, ◌<◌, ℕ, ℤ, [], None, length, true};
ghost use Rattle.cs_cells.specs.{Cells.Cells, Cells.cell, Meaning.Frames};
ghost use Rattle.cs_voice_meaning.specs.{Follows.DoAlike, Room.VoiceFits};
ghost use Rattle.cs_ir.specs.{Validity.fine_from, declared.register.Counts.Counts};
ghost use Rattle.cs_voice_meaning.specs.Voices.{Sheet, Sounding, IsPlayable, IsSound, cycle, initialised, left_by};
ghost use Rattle.cs_voice_meaning.specs.Voices.{performed, voice_means, voice_of};

/// A code has the same effect in the voice's world, over cells and the states of units, as in the plain world
/// of the meaning.
pub fn voices_stand_for_notes()
    ensures { DoAlike }
{}

/// The frame law of voices; and over only the cells of its footprint, a voice does what its code does over
/// all cells.
pub fn voices_obey_the_frame_law()
    ensures frames { Frames voice_means }
    ensures voice { (v : Sounding) (c : Cells) → IsSound v → performed v c ≡ voice_of v.sheet (cycle v (cell c)) }
    ensures cells { (v : Sounding) (c : Cells) (a : ℕ) → IsSound v → a < length c
        → cell (left_by v c) a ≡ (cycle v (cell c)).world.shared a }
{}

/// A control cycle refuses nothing, schedules no note and starts no delay. So it allocates no memory.
pub fn cycles_refuse_nothing()
    ensures { (v : Sounding) (cells : ℕ → ℤ) → IsSound v → ((cycle v cells).world.cause ≡ None)
        × ((cycle v cells).world.asks ≡ []) × ((cycle v cells).world.delays ≡ v.delays) }
{}

/// A voice that plays valid codes needs only the registers and units that its codes count, the frames of its
/// piece, and its channels if its codes count an audio register. All others are empty, as it begins and after
/// each cycle.
pub fn voices_fit_their_room()
    ensures begins { (s : Sheet) (counts : Counts) (cells : ℕ → ℤ) → IsPlayable s
        → fine_from counts (length s.init) 0 s.init ≡ true → VoiceFits counts (voice_of s (initialised s cells)) }
    ensures goes_on { (v : Sounding) (counts : Counts) (c : Cells) → IsSound v
        → fine_from counts (length v.sheet.perf) 0 v.sheet.perf ≡ true → VoiceFits counts v
        → VoiceFits counts (performed v c) }
{}
