// The meters' lines as worked examples: a function that does nothing, and whose contract is the examples.
ghost use Rattle.std.specs.Prelude.{◌≡◌, pos, negsuc, [], ◌∷◌, codes};
ghost use Rattle.cs_edge.specs.Taps.{peak_line, mirror_line, mirror_text};

/// Lines of the meters: a peak is an integer and five decimal places; a mirror line is the count, followed by
/// the stored values.
pub fn worked_examples()
    ensures hundred { peak_line 6553600 ≡ codes "peak 100.00000\n" }
    ensures smallest { peak_line 1 ≡ codes "peak 0.00001\n" }
    ensures mirror { mirror_line (pos 65536 ∷ negsuc 131071 ∷ []) 9 ≡ codes "mirror 9 65536 -131072\n" }
    ensures no_room { mirror_text (pos 65536 ∷ []) 9 14 ≡ codes "mirror 9\n" }
{}
