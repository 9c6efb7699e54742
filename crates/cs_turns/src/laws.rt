// What holds for turns: calls that do nothing as they run, whose contracts are the laws.
ghost use Rattle.std.specs.Prelude.{◌≡◌, ◌∷◌, [], ℕ, true, List, length};
ghost use Rattle.std.specs.List.{AllZip};
ghost use Rattle.cs_cells.specs.{declared.footprint.Area.Area, declared.footprint.Footprint.Footprint};
ghost use Rattle.cs_meaning.specs.Core.{Block};
ghost use Rattle.cs_piece_meaning.specs.Moments.{Active, Composition};
ghost use Rattle.cs_graph.specs.{Conflict.Clash, Graph.IsLevelled};
ghost use Rattle.cs_layout.specs.Layouts.{areas_of};
ghost use Rattle.cs_rwset.specs.Footprints.{stock_of};
ghost use Rattle.cs_turns.specs.{Examples.giving_and_taking, Examples.turns_of_places, Turns.turns_in};
ghost use Rattle.cs_turns.specs.Turns.{AreOver, IsFootOf, conflict, line_of, live_tables, notes_in, stock_in, touched};
ghost use Rattle.cs_typed.specs.TypedTree.{SharedNames};

use cs_layout::layouts_are_complete;

/// For the prover: the footprints of two notes in terms of zones clash if and only if the notes conflict,
/// that is, if the statements of one of them may write in a control cycle what the statements of the other
/// may use.
pub fn clashes_are_conflicts()
    ensures conflict { (areas zones : List Area) (body other : Block) (foot foot_2 : Footprint) → AreOver areas zones
        → IsFootOf areas zones body foot → IsFootOf areas zones other foot_2 → Clash foot foot_2
        → conflict (touched (stock_of areas) body) (touched (stock_of areas) other) ≡ true }
    ensures clash { (areas zones : List Area) (body other : Block) (foot foot_2 : Footprint) → AreOver areas zones
        → IsFootOf areas zones body foot → IsFootOf areas zones other foot_2
        → conflict (touched (stock_of areas) body) (touched (stock_of areas) other) ≡ true → Clash foot foot_2 }
{}

/// For the prover: if the areas have the stock of the piece, the graph levels of notes, by any method that
/// levels their footprints, equal their turns.
pub fn turns_are_levels()
    ensures { (c : Composition) (areas zones : List Area) (notes : List Active) (feet : List Footprint)
        (levels : List ℕ) → AreOver areas zones → stock_of areas ≡ stock_in c
        → AllZip (λ (a : Active) (f : Footprint). IsFootOf areas zones a.body f) notes feet
        → length levels ≡ length feet → IsLevelled feet levels → levels ≡ turns_in c notes }
{}

/// For the prover: the areas of a piece have its stock.
pub fn layouts_have_the_stock()
    ensures { (c : Composition) (ksmps : ℕ) (names : SharedNames)
        → stock_of (areas_of ksmps names c.spaces (live_tables c.tables)) ≡ stock_in c }
{
    layouts_are_complete();
}

/// For the prover: turns worked out from the definitions.
pub fn turns_worked_by_hand()
    // The second note reads the variable that the first one sets; the third reads another variable.
    ensures first { turns_in giving_and_taking (notes_in giving_and_taking 0) ≡ 0 ∷ 1 ∷ 0 ∷ [] }
    ensures second { turns_in giving_and_taking (notes_in giving_and_taking 1) ≡ 0 ∷ 1 ∷ 0 ∷ [] }
    // Only the first 1,000 cycles have lines.
    ensures no_line { line_of 1000 (0 ∷ []) ≡ [] }
    // Two zak places don't conflict; a place that is computed may be either of them.
    ensures places { turns_of_places ≡ 0 ∷ 0 ∷ 1 ∷ 1 ∷ [] }
{}
