// Sound files and refusals worked out by hand: calls that do nothing as they run, whose contracts are the
// examples.
ghost use Rattle.std.specs.Prelude.{Err};
ghost use Rattle.cs_base.specs.declared.fault.OrcKind.TheVariants as orc;
ghost use Rattle.cs_base.specs.declared.refusal.Refusal.TheVariants as why;
ghost use Rattle.cs_base.specs.declared.width.SampleWidth.{SampleWidth};
ghost use Rattle.cs_base.specs.declared.width.SampleWidth.TheVariants.{TwoBytes, ThreeBytes};
ghost use Rattle.cs_compile.specs.Worked.{fourth_field, note_of_100, stray_byte};
ghost use Rattle.cs_source.specs.{Meaning.Mean, Sounds.IsSoundOf, Texts.both, Texts.csd};
ghost use Rattle.cs_source.specs.Worked.{fault_in_line_4, narrow_file, wide_file};

use cs_compile::texts_worked_by_hand;

/// For the prover: the sound of two small texts byte by byte, in samples of either width; and a refusal.
pub fn sounds_worked_by_hand()
    ensures narrow { IsSoundOf (both fourth_field note_of_100) TwoBytes narrow_file }
    ensures wide { IsSoundOf (both fourth_field note_of_100) ThreeBytes wide_file }
    ensures refused { (width : SampleWidth) → Mean width (both stray_byte note_of_100)
        (Err (why.Orc (record { line = 2; kind = orc.BadToken }))) }
{
    texts_worked_by_hand();
}

/// For the prover: a fault in the first line after `<CsInstruments>`, with that tag in line 3, is at line 4
/// of the file.
pub fn lines_worked_by_hand()
    ensures { (width : SampleWidth) → Mean width (csd fault_in_line_4)
        (Err (why.Orc (record { line = 4; kind = orc.BadToken }))) }
{}
