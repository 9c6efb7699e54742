// What holds for every voice and its note: calls that do nothing as they run, whose contracts are the laws.
ghost use Rattle.std.specs.Prelude.{◌≡◌, ◌<◌, AllPairs, List};
ghost use Rattle.cs_meaning.specs.{Core.Block, Core.core, Plain.Table};
ghost use Rattle.cs_tempo.specs.declared.plot.Event.{Event};
ghost use Rattle.cs_code.specs.Means.{Means};
ghost use Rattle.cs_ugen.specs.Generators.{pace_of, the_generators};
ghost use Rattle.cs_voice_meaning.specs.Voices.{Sheet, IsPlayable};
ghost use Rattle.cs_typed.specs.TypedTree as typed;
ghost use Rattle.cs_ir.specs.declared.op.Code.{Code};
ghost use Rattle.cs_code.specs.Names.{block_units};
ghost use Rattle.cs_piece.specs.{Tables.tables_in, Sheets.IsSheetOf, Sheets.kinds_of, VoicesOfNotes.Perform};

/// For the prover: voices that play codes which mean the statements of a note perform the note, as it begins
/// and in every control cycle.
pub fn voices_perform_their_notes()
    ensures { (s : Sheet) (body : Block) (means : Means body s.init s.perf) (playable : IsPlayable s)
        → s.piece.generators ≡ the_generators (pace_of s.piece.head) → Perform means.plan playable.kinds s body }
{}

/// For the prover: an instrument's sheet can be played, and the voices that play from it perform the notes
/// that the instrument means.
pub fn instruments_are_performed()
    ensures playable { (s : Sheet) (body : typed.Block) (init perf : Code) → IsSheetOf s body init perf → IsPlayable s }
    ensures performed { (s : Sheet) (body : typed.Block) (init perf : Code) (h : IsSheetOf s body init perf)
        → Perform h.code.means.plan (kinds_of (block_units (core s.piece.spaces body))) s (core s.piece.spaces body) }
{}

/// For the prover: the tables of a plot are in ascending order of number.
pub fn tables_are_in_order()
    ensures { (o : typed.Orchestra) (events : List Event)
        → AllPairs (λ (t u : Table). t.number < u.number) (tables_in o events) }
{}
