// Texts worked out by hand: a call that does nothing as it runs, whose contract is the examples.
ghost use Rattle.std.specs.Prelude.{◌≡◌, [], ◌∷◌, Ok, Err};
ghost use Rattle.cs_base.specs.Lines.{excerpt, whole_file};
ghost use Rattle.cs_base.specs.declared.fault.OrcKind.TheVariants as orc;
ghost use Rattle.cs_base.specs.declared.refusal.Refusal.TheVariants as why;
ghost use Rattle.cs_base.specs.declared.width.SampleWidth.{SampleWidth};
ghost use Rattle.cs_compile.specs.Meaning.{means};
ghost use Rattle.cs_compile.specs.Worked.{fourth_field, note_of_100, stray_byte, whole};
ghost use Rattle.cs_piece_meaning.specs.{Heard.frames_of, Moments.Composition};

/// For the prover: a note of a quarter of a second, at eight frames a second, is two frames of its fourth
/// field; and an orchestra is refused because of a byte that begins no token, with its line in the file,
/// before its score is read.
pub fn texts_worked_by_hand()
    ensures sound { (width : SampleWidth) → (c : Composition)
        × means width (whole_file fourth_field) (whole_file note_of_100) (Ok c)
        × (c.head ≡ record { sr = 8; ksmps = 1; nchnls = 1; dbfs = whole 32768 })
        × (frames_of c ≡ whole 100 ∷ whole 100 ∷ []) }
    ensures refused { (width : SampleWidth) → means width (whole_file stray_byte) (whole_file note_of_100)
        (Err (why.Orc (record { line = 2; kind = orc.BadToken }))) }
    ensures refused_in_a_part { (width : SampleWidth) → means width (excerpt 7 stray_byte) (whole_file note_of_100)
        (Err (why.Orc (record { line = 8; kind = orc.BadToken }))) }
{}
