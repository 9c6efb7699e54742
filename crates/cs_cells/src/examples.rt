// A worked example of a layout and its cells.
ghost use Rattle.std.specs.Prelude.{◌≡◌, map, true, false, [], ◌∷◌, Some, None};
ghost use Rattle.cs_base.specs.declared.limit.Limit.TheVariants as limit;
ghost use Rattle.cs_cells.specs.Areas.{IsLaid, word_count, limit_passed};
ghost use Rattle.cs_cells.specs.{Cells.covers, Examples.three_areas, Examples.one_area};

/// A layout written out by hand: the variable `gk1`, a channel and a table of four points, in six cells. It
/// does nothing: its clauses are the results that the definitions yield for this layout.
pub fn layout_examples()
    ensures laid { IsLaid three_areas }
    ensures cells { word_count three_areas ≡ 6 }
    // A job that may use the variable and the table may use these cells, but not the channel's cell.
    ensures covered { map (covers three_areas (0 ∷ 2 ∷ [])) (0 ∷ 1 ∷ 2 ∷ 5 ∷ 6 ∷ [])
        ≡ true ∷ false ∷ true ∷ true ∷ false ∷ [] }
    ensures most { limit_passed (one_area 65536) ≡ None }
    ensures more { limit_passed (one_area 65537) ≡ Some (record { limit = limit.Words; line = 0 }) }
{}
