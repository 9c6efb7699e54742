// Worked examples of the formulas. The function does nothing; its contract states the examples.
ghost use Rattle.std.specs.Prelude.{◌≡◌, [], ◌∷◌, ◌++◌, replicate, pos, negsuc};
ghost use Rattle.cs_base.specs.declared.resource.Rate.TheVariants.{Audio, Control};
ghost use Rattle.cs_signal.specs.{Biquad.biquad_of, Delay.delay_of, Diff.diff_of, Downsamp.downsamp_of, Integ.integ_of};
ghost use Rattle.cs_signal.specs.{Interp.interp_of, Limit.limit_of, Line.line_of, Linen.linen_of, Linseg.linseg_of};
ghost use Rattle.cs_signal.specs.{Samphold.samphold_of, Steps.results_by};

/// The examples of docs/LANGUAGE.md at 8 frames a second and 4 frames a control cycle, and one example of
/// each formula that has none there. A step's inputs are a list, which is empty for a unit without moving
/// arguments.
pub fn worked_examples()
    ensures line { results_by line_of Audio (record { sr = 8; ksmps = 4 }) (pos 0 ∷ pos 65536 ∷ pos 65536 ∷ [])
        (replicate 10 [])
        ≡ pos 0 ∷ pos 8192 ∷ pos 16384 ∷ pos 24576 ∷ pos 32768 ∷ pos 40960 ∷ pos 49152 ∷ pos 57344
        ∷ pos 65536 ∷ pos 73728 ∷ [] }
    ensures line_of_cycles { results_by line_of Control (record { sr = 8; ksmps = 4 }) (pos 0 ∷ pos 65536
        ∷ pos 65536 ∷ []) (replicate 4 [])
        ≡ pos 0 ∷ pos 32768 ∷ pos 65536 ∷ pos 98304 ∷ [] }
    ensures falling_line { results_by line_of Audio (record { sr = 8; ksmps = 4 }) (pos 65536 ∷ pos 24576
        ∷ pos 0 ∷ []) (replicate 5 [])
        ≡ pos 65536 ∷ pos 43690 ∷ pos 21845 ∷ pos 0 ∷ negsuc 21845 ∷ [] }
    ensures linseg { results_by linseg_of Audio (record { sr = 8; ksmps = 4 }) (pos 0 ∷ pos 32768 ∷ pos 65536
        ∷ []) (replicate 6 [])
        ≡ pos 0 ∷ pos 16384 ∷ pos 32768 ∷ pos 49152 ∷ pos 65536 ∷ pos 65536 ∷ [] }
    ensures jump { results_by linseg_of Audio (record { sr = 8; ksmps = 4 }) (pos 0 ∷ pos 0 ∷ pos 65536
        ∷ pos 16384 ∷ pos 0 ∷ []) (replicate 4 [])
        ≡ pos 65536 ∷ pos 32768 ∷ pos 0 ∷ pos 0 ∷ [] }
    ensures linen { results_by linen_of Audio (record { sr = 8; ksmps = 4 }) (pos 16384 ∷ pos 65536 ∷ pos 32768 ∷ [])
        (replicate 10 (pos 65536 ∷ []))
        ≡ pos 0 ∷ pos 32768 ∷ pos 65536 ∷ pos 65536 ∷ pos 65536 ∷ pos 49152 ∷ pos 32768 ∷ pos 16384 ∷ pos 0
        ∷ negsuc 16383 ∷ [] }
    ensures delay { results_by delay_of Audio (record { sr = 8; ksmps = 4 }) (pos 16384 ∷ [])
        ((pos 1 ∷ []) ∷ (pos 2 ∷ []) ∷ (pos 3 ∷ []) ∷ [])
        ≡ pos 0 ∷ pos 0 ∷ pos 1 ∷ [] }
    ensures biquad { results_by biquad_of Audio (record { sr = 8; ksmps = 4 }) []
        (replicate 3 (pos 65536 ∷ pos 65536 ∷ pos 0 ∷ pos 0 ∷ pos 65536 ∷ negsuc 65535 ∷ pos 0 ∷ []))
        ≡ pos 65536 ∷ pos 131072 ∷ pos 196608 ∷ [] }
    ensures integ { results_by integ_of Audio (record { sr = 8; ksmps = 4 }) []
        ((pos 3 ∷ []) ∷ (pos 140737488355327 ∷ []) ∷ (negsuc 0 ∷ []) ∷ [])
        ≡ pos 3 ∷ pos 140737488355327 ∷ pos 140737488355326 ∷ [] }
    ensures diff { results_by diff_of Audio (record { sr = 8; ksmps = 4 }) [] ((pos 5 ∷ []) ∷ (pos 7 ∷ [])
        ∷ (pos 4 ∷ []) ∷ [])
        ≡ pos 5 ∷ pos 2 ∷ negsuc 2 ∷ [] }
    ensures samphold { results_by samphold_of Control (record { sr = 8; ksmps = 4 }) []
        ((pos 5 ∷ pos 0 ∷ []) ∷ (pos 6 ∷ pos 1 ∷ []) ∷ (pos 7 ∷ pos 0 ∷ []) ∷ (pos 8 ∷ negsuc 0 ∷ []) ∷ [])
        ≡ pos 0 ∷ pos 6 ∷ pos 6 ∷ pos 6 ∷ [] }
    ensures crossed { results_by limit_of Control (record { sr = 8; ksmps = 4 }) [] ((pos 9 ∷ pos 4 ∷ pos 1
        ∷ []) ∷ [])
        ≡ pos 2 ∷ [] }
    ensures interp { results_by interp_of Audio (record { sr = 8; ksmps = 4 }) []
        (replicate 4 (pos 65536 ∷ []) ++ replicate 4 (pos 0 ∷ []))
        ≡ pos 16384 ∷ pos 32768 ∷ pos 49152 ∷ pos 65536 ∷ pos 49152 ∷ pos 32768 ∷ pos 16384 ∷ pos 0 ∷ [] }
    ensures downsamp { results_by downsamp_of Control (record { sr = 8; ksmps = 4 }) [] ((pos 7 ∷ [])
        ∷ (pos 9 ∷ []) ∷ [])
        ≡ pos 7 ∷ pos 9 ∷ [] }
{}
