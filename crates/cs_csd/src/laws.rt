// What holds for every file, and worked examples: calls that do nothing as they run, whose contracts are the
// laws.
ghost use Rattle.std.specs.Prelude.{◌≡◌, ℕ, List, Result, Ok, Err, codes, ◌++◌};
ghost use Rattle.cs_csd.specs.Sections.{BeginsOnItsLine, Reading, fault};
ghost use Rattle.cs_base.specs.declared.fault.CsdFault.{CsdFault};
ghost use Rattle.cs_base.specs.declared.fault.CsdKind.TheVariants as kind;
ghost use Rattle.cs_csd.specs.declared.part.Parts.{Parts};

/// For the prover: each file has exactly one reading.
pub fn one_reading()
    ensures some { (text : List ℕ) → (r : Result Parts CsdFault) × Reading text r }
    ensures one { (text : List ℕ) (r s : Result Parts CsdFault) → Reading text r → Reading text s → r ≡ s }
{}

/// For the prover: the parts of a file begin on the lines that they name.
pub fn parts_begin_on_their_lines()
    ensures { (text : List ℕ) (p : Parts) → Reading text (Ok p)
        → BeginsOnItsLine text p.orc × BeginsOnItsLine text p.sco }
{}

/// For the prover: files of docs/LANGUAGE.md, read by hand. Text before and after the two outer tags doesn't
/// count, and offsets and lines count from the start of the file.
pub fn files_worked_by_hand()
    ensures parts { Reading
        (codes "a\n<CsoundSynthesizer>\n<CsInstruments>\nsr = 8\n</CsInstruments>\n"
        ++ codes "; b\n <CsScore> \ni1 0 1\n</CsScore>\n</CsoundSynthesizer>\nc")
        (Ok (record { orc = record { from = 38; to = 45; line = 4 }; sco = record { from = 78; to = 85; line = 8 } })) }
    ensures no_score { Reading (codes "<CsoundSynthesizer>\n<CsInstruments>\n</CsInstruments>\n</CsoundSynthesizer>")
        (Ok (record { orc = record { from = 36; to = 36; line = 3 }; sco = record { from = 0; to = 0; line = 1 } })) }
    ensures cut { Reading (codes "<CsoundSynthesizer>\n<CsScore>") (Err (fault kind.MissingTag 2)) }
    ensures no_orchestra { Reading (codes "<CsoundSynthesizer>\n</CsoundSynthesizer>") (Err (fault kind.MissingTag 2)) }
    ensures empty { Reading (codes "") (Err (fault kind.MissingTag 1)) }
    ensures twice { Reading (codes "<CsoundSynthesizer>\n<CsScore>\n</CsScore>\n<CsScore>")
        (Err (fault kind.SectionTwice 4)) }
    ensures stray { Reading (codes "<CsoundSynthesizer>\n<CsFileB filename=x>") (Err (fault kind.NotInProfile 2)) }
    ensures other_case { Reading (codes "<CsoundSynthesizer>\n<csscore>") (Err (fault kind.NotInProfile 2)) }
{}
