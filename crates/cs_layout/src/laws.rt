// Facts about every layout of a piece: calls that do nothing as they run, whose contracts are the laws.
ghost use Rattle.std.specs.Prelude.{ℕ, ◌≡◌, ◌<◌, List, Some, true};
ghost use Rattle.std.specs.{List.All, Option.is_some};
ghost use Rattle.cs_machine.specs.Access.{AreSpaces, spaces_of};
ghost use Rattle.cs_base.specs.{Rates.res_rate, declared.resource.Res.Res, declared.spaces.Spaces.Spaces};
ghost use Rattle.cs_cells.specs.{Areas.IsLaid, declared.footprint.Area.Area};
ghost use Rattle.cs_ir.specs.Validity.{has_value};
ghost use Rattle.cs_layout.specs.Layouts.{AreApart, AreLive, AreOfPiece, areas_of, is_shared};
ghost use Rattle.cs_layout.specs.declared.areas.LiveTable.{LiveTable};
ghost use Rattle.cs_meaning.specs.Pieces.{Piece};
ghost use Rattle.cs_rwset.specs.Footprints.{stock_of};
ghost use Rattle.cs_voice_meaning.specs.Placing.{IsPlaced, area_of, cell_count, is_table_size};
ghost use Rattle.cs_typed.specs.TypedTree.{SharedNames};

/// For the prover: areas follow one another and no resource has two. A resource has an area if and only if
/// the piece has the resource; an audio resource has a cell for each frame of a control cycle, any other one
/// cell.
pub fn layouts_are_complete()
    ensures laid { (ksmps : ℕ) (names : SharedNames) (spaces : Spaces) (live : List LiveTable) → AreApart live
        → IsLaid (areas_of ksmps names spaces live) }
    ensures there { (ksmps : ℕ) (names : SharedNames) (spaces : Spaces) (live : List LiveTable) (g : Res)
        → is_some (area_of (areas_of ksmps names spaces live) g) ≡ is_shared names spaces live g }
    ensures cells { (ksmps : ℕ) (names : SharedNames) (spaces : Spaces) (live : List LiveTable) (g : Res) (area : Area)
        → AreApart live → area_of (areas_of ksmps names spaces live) g ≡ Some area → has_value g ≡ true
        → area.length ≡ cell_count ksmps (res_rate g) }
    ensures spaces { (ksmps : ℕ) (names : SharedNames) (spaces : Spaces) (live : List LiveTable)
        → (stock_of (areas_of ksmps names spaces live)).spaces ≡ spaces }
{}

/// For the prover: a layout has the zak spaces of the piece. Each place has its area, from place 0 on, and no
/// other place has one.
pub fn layouts_have_their_places()
    ensures spaces { (ksmps : ℕ) (names : SharedNames) (spaces : Spaces) (live : List LiveTable)
        → spaces_of (areas_of ksmps names spaces live) ≡ spaces }
    ensures places { (ksmps : ℕ) (names : SharedNames) (spaces : Spaces) (live : List LiveTable)
        → AreSpaces (areas_of ksmps names spaces live) }
{}

/// For the prover: what the notes of a piece share has its areas in the layout: the zak spaces, and the
/// tables that notes may write.
pub fn layouts_hold_a_piece()
    ensures { (names : SharedNames) (live : List LiveTable) (piece : Piece) → AreApart live → 0 < piece.head.ksmps
        → AreLive live piece.tables → AreOfPiece live piece.tables → All (λ t. is_table_size t.size ≡ true) live
        → IsPlaced (areas_of piece.head.ksmps names piece.spaces live)
        (stock_of (areas_of piece.head.ksmps names piece.spaces live)) piece }
{}
