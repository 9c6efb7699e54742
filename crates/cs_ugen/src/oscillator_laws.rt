// Facts about the definitions that hold for all inputs. These functions do nothing; their contracts state the
// facts.
ghost use Rattle.std.specs.Prelude.{◌≡◌, true, None, ℤ, pos, negsuc, neg_ℤ, List, [], ◌∷◌, length};
ghost use Rattle.cs_base.specs.declared.resource.Rate.TheVariants.{Audio};
ghost use Rattle.cs_gen.specs.{Faults.table_fault, Points.len_of, Tables.IsMade, Tables.curve_of};
ghost use Rattle.cs_ugen.specs.{Oscil.oscil_of, Oscili.oscili_of, Phasor.phasor_of, Table.table_of, Tablei.tablei_of};
ghost use Rattle.cs_ugen.specs.Points.{IsCurve, is_len};

/// A made table can be read: its length is a power of two, and with its guard point it is a curve.
pub fn made_tables_are_curves()
    ensures length { (size gen : ℤ) (args points : List ℤ) → table_fault size gen args ≡ None
        → IsMade size gen args points → is_len (len_of (length points)) ≡ true }
    ensures curve { (size gen : ℤ) (args points : List ℤ) → table_fault size gen args ≡ None
        → IsMade size gen args points → IsCurve (curve_of points) }
{}

/// Worked examples of docs/LANGUAGE.md, at 8 frames a second and a-rate, over the points 5, 6, 7, 8 and the
/// guard point 5. They are a ramp forward, a ramp backward, a waveform with interpolated points and one with
/// held points, the guard point, and indexes below, above and between the points.
pub fn steps_worked_by_hand()
    ensures ramp { let x : List ℤ = pos 65536 ∷ [] in
        phasor_of Audio (record { sr = 8; ksmps = 4 }) [] (x ∷ x ∷ x ∷ x ∷ []) ≡ pos 24576 }
    ensures backward { let x : List ℤ = neg_ℤ (pos 65536) ∷ [] in
        phasor_of Audio (record { sr = 8; ksmps = 4 }) [] (x ∷ x ∷ []) ≡ pos 57344 }
    ensures wave { let x : List ℤ = pos 131072 ∷ pos 65536
        ∷ pos 327680 ∷ pos 393216 ∷ pos 458752 ∷ pos 524288 ∷ pos 327680 ∷ [] in
        oscili_of Audio (record { sr = 8; ksmps = 4 }) (pos 65536 ∷ []) (x ∷ x ∷ []) ≡ pos 720896 }
    ensures held { let x : List ℤ = pos 131072 ∷ pos 65536
        ∷ pos 327680 ∷ pos 393216 ∷ pos 458752 ∷ pos 524288 ∷ pos 327680 ∷ [] in
        oscil_of Audio (record { sr = 8; ksmps = 4 }) (pos 65536 ∷ []) (x ∷ x ∷ x ∷ x ∷ []) ≡ pos 786432 }
    ensures guard { let x : List ℤ = pos 65536 ∷ pos 0
        ∷ pos 327680 ∷ pos 393216 ∷ pos 458752 ∷ pos 524288 ∷ pos 327680 ∷ [] in
        oscili_of Audio (record { sr = 8; ksmps = 4 }) (pos 65536 ∷ pos 57344 ∷ []) (x ∷ []) ≡ pos 425984 }
    ensures below { let points : List ℤ = pos 327680 ∷ pos 393216 ∷ pos 458752 ∷ pos 524288 ∷ pos 327680 ∷ [] in
        table_of Audio (record { sr = 8; ksmps = 4 }) (pos 65536 ∷ []) ((negsuc 65535 ∷ points) ∷ []) ≡ pos 327680 }
    ensures above { let points : List ℤ = pos 327680 ∷ pos 393216 ∷ pos 458752 ∷ pos 524288 ∷ pos 327680 ∷ [] in
        table_of Audio (record { sr = 8; ksmps = 4 }) (pos 65536 ∷ []) ((pos 589824 ∷ points) ∷ []) ≡ pos 524288 }
    ensures between { let points : List ℤ = pos 327680 ∷ pos 393216 ∷ pos 458752 ∷ pos 524288 ∷ pos 327680 ∷ [] in
        tablei_of Audio (record { sr = 8; ksmps = 4 }) (pos 65536 ∷ []) ((pos 229376 ∷ points) ∷ []) ≡ pos 425984 }
{}
