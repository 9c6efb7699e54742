// Facts about footprints. These functions do nothing; their contracts state the facts.
ghost use Rattle.std.specs.Prelude.{◌≡◌, ◌↔◌, ◌<◌, ◌≤◌, ℕ, true, List, [], ◌∷◌, length, Some};
ghost use Rattle.std.specs.{List.Contains, List.Sorted.IsStrictlyIncreasing};
ghost use Rattle.cs_base.specs.declared.resource.Res.{Res};
ghost use Rattle.cs_base.specs.declared.resource.Res.TheVariants as res;
ghost use Rattle.cs_cells.specs.{Areas.HasPlace, Areas.IsLaid, Cells.covers, Cells.in_area};
ghost use Rattle.cs_cells.specs.declared.footprint.Area.{Area};
ghost use Rattle.cs_words.specs.declared.catalogue.Opcode.TheVariants.{Tablei, Zkw, Zkcl};
ghost use Rattle.cs_words.specs.declared.catalogue.Space.{Space};
ghost use Rattle.cs_ir.specs.Resources.{NameTheSame, act_uses, act_writes, ops_use, ops_write, places_within};
ghost use Rattle.cs_ir.specs.{Resources.tables_within, Resources.zak_place, declared.op.Op.Op};
ghost use Rattle.cs_ir.specs.declared.op.Act.TheVariants.{Load, Save, Store, Unit, Zak};
ghost use Rattle.cs_ir.specs.declared.op.Reach.TheVariants.{Nothing, Span, Any};
ghost use Rattle.cs_rwset.specs.Examples.{seven_areas, used, written};
ghost use Rattle.cs_rwset.specs.Footprints.{place_count, places_holding, stock_of};

/// The places of resources in any areas: exactly the places whose area belongs to one of the resources, in
/// ascending order, each once. The order and repetition of resources in the list make no difference.
pub fn places_are_of_resources()
    ensures exact { (areas : List Area) (rs : List Res) (place : ℕ) → Contains (places_holding areas rs) place
        ↔ ((r : Res) × Contains rs r × HasPlace areas r place) }
    ensures ascending { (areas : List Area) (rs : List Res) → IsStrictlyIncreasing (places_holding areas rs) }
    ensures within { (areas : List Area) (rs : List Res) (place : ℕ)
        → Contains (places_holding areas rs) place → place < length areas }
    ensures alike { (areas : List Area) (xs ys : List Res) → NameTheSame xs ys
        → places_holding areas xs ≡ places_holding areas ys }
{}

/// The places of a footprint: exactly the places whose resource an op of the code may use, or may write.
pub fn footprints_are_of_ops()
    ensures used { (areas : List Area) (ops : List Op) (place : ℕ)
        → Contains (places_holding areas (ops_use (stock_of areas) ops)) place
        ↔ ((op : Op) × (r : Res) × Contains ops op × Contains (act_uses (stock_of areas) op.act) r
        × HasPlace areas r place) }
    ensures written { (areas : List Area) (ops : List Op) (place : ℕ)
        → Contains (places_holding areas (ops_write (stock_of areas) ops)) place
        ↔ ((op : Op) × (r : Res) × Contains ops op × Contains (act_writes (stock_of areas) op.act) r
        × HasPlace areas r place) }
{}

/// The cells of a footprint: exactly the cells in an area of one of the resources.
pub fn cells_are_of_resources()
    ensures { (areas : List Area) (rs : List Res) (address : ℕ) → covers areas (places_holding areas rs) address ≡ true
        ↔ ((area : Area) × Contains areas area × Contains rs area.res × (in_area (Some area) address ≡ true)) }
{}

/// Numbers of tables and of zak places. A literal number names only its table or its place, two literal
/// bounds name the places from one to the other, and a computed number names every live table or every place
/// of the space.
pub fn reach_of_numbers()
    ensures literal_table { (areas : List Area) (n place : ℕ)
        → Contains (places_holding areas (tables_within (stock_of areas) (Span n n))) place
        ↔ HasPlace areas (res.Table n) place }
    ensures computed_table { (areas : List Area) (place : ℕ)
        → Contains (places_holding areas (tables_within (stock_of areas) Any)) place
        ↔ ((n : ℕ) × HasPlace areas (res.Table n) place) }
    ensures no_table { (areas : List Area) (place : ℕ)
        → ¬ (Contains (places_holding areas (tables_within (stock_of areas) Nothing)) place) }
    ensures literal_place { (areas : List Area) (s : Space) (n place : ℕ)
        → Contains (places_holding areas (places_within (stock_of areas) s (Span n n))) place
        ↔ ((n < place_count areas s) × HasPlace areas (zak_place s n) place) }
    ensures literal_bounds { (areas : List Area) (s : Space) (first last place : ℕ)
        → Contains (places_holding areas (places_within (stock_of areas) s (Span first last))) place
        ↔ ((n : ℕ) × (first ≤ n) × (n ≤ last) × (n < place_count areas s) × HasPlace areas (zak_place s n) place) }
    ensures computed_place { (areas : List Area) (s : Space) (place : ℕ)
        → Contains (places_holding areas (places_within (stock_of areas) s Any)) place
        ↔ ((n : ℕ) × (n < place_count areas s) × HasPlace areas (zak_place s n) place) }
    ensures no_place { (areas : List Area) (s : Space) (place : ℕ)
        → ¬ (Contains (places_holding areas (places_within (stock_of areas) s Nothing)) place) }
{}

/// Every place that ops may write they may also use.
pub fn written_is_used()
    ensures { (areas : List Area) (ops : List Op) (place : ℕ)
        → Contains (places_holding areas (ops_write (stock_of areas) ops)) place
        → Contains (places_holding areas (ops_use (stock_of areas) ops)) place }
{}

/// Worked examples of footprints in a layout of seven areas: `gk1` at place 0, a channel at 1, three zak
/// places from 2 on, tables 1 and 2 at 5 and 6.
pub fn footprints_worked_by_hand()
    ensures laid { IsLaid seven_areas }
    // `tablew k1, k2, i1` may write both tables, so it may also use them.
    ensures table_write { (written (Store Any ∷ []) ≡ 5 ∷ 6 ∷ []) × (used (Store Any ∷ []) ≡ 5 ∷ 6 ∷ []) }
    // `tablei k1, 2` reads table 2.
    ensures table_read { (used (Unit Tablei 0 (Span 2 2) ∷ []) ≡ 6 ∷ [])
        × (written (Unit Tablei 0 (Span 2 2) ∷ []) ≡ []) }
    // `zkw 1, 0` writes one place, `zkcl 1, 2` the last two.
    ensures zak { (written (Zak Zkw (Span 0 0) ∷ []) ≡ 2 ∷ []) × (written (Zak Zkcl (Span 1 2) ∷ []) ≡ 3 ∷ 4 ∷ []) }
    // `chnget` reads its channel.
    ensures channel { (used (Load (res.Control 0) ∷ []) ≡ 1 ∷ []) × (written (Load (res.Control 0) ∷ []) ≡ []) }
    // A variable is listed before the tables, whichever op names it first, and only once.
    ensures variable { used (Unit Tablei 0 (Span 1 1) ∷ Save (res.Gk 0) ∷ Load (res.Gk 0) ∷ []) ≡ 0 ∷ 5 ∷ [] }
    ensures variable_written { written (Unit Tablei 0 (Span 1 1) ∷ Save (res.Gk 0) ∷ []) ≡ 0 ∷ [] }
{}
