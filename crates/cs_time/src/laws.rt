// Facts about times that hold for every tempo. These functions do nothing; their contracts state the facts.
ghost use Rattle.std.specs.Prelude.{◌≡◌, ◌≤◌, ◌+◌, ◌*◌, ◌/◌, ℕ, List, [], ◌∷◌, pos, ◌+ℤ◌, ◌-ℤ◌, ◌*ℤ◌};
ghost use Rattle.cs_base.specs.Numbers.{floor_div};
ghost use Rattle.cs_score.specs.declared.statement.TempoPoint.{TempoPoint};
ghost use Rattle.cs_time.specs.Time.{IsTempo, ramp_time, time_of, cycle_of, seconds_of};

/// The time of a beat never falls as the beat grows, nor does the cycle of a time. A beat lasts at most a
/// minute.
pub fn time_never_falls()
    ensures time { (tempo : List TempoPoint) (a b : ℕ) → IsTempo tempo → a ≤ b → time_of tempo a ≤ time_of tempo b }
    ensures cycle { (a b sr ksmps : ℕ) → a ≤ b → cycle_of a sr ksmps ≤ cycle_of b sr ksmps }
    ensures small { (tempo : List TempoPoint) (beat : ℕ) → IsTempo tempo → time_of tempo beat ≤ 60000 * beat }
{}

/// The time along a ramp is its formula over signed integers, each part rounded down. The result is never
/// negative.
pub fn ramps_are_rounded_down()
    ensures { (first last span x : ℕ) → 1000000 ≤ first → 1000000 ≤ last → x ≤ span
        → pos (ramp_time first last span x) ≡ pos (first * x / 1000000)
        +ℤ floor_div ((pos last -ℤ pos first) *ℤ pos (x * x)) (pos (2 * span * 1000000)) }
{}

/// Worked examples of docs/MEANING.md for `t 0 60 4 120`: the times of beats 2 and 4, and the seconds that an
/// instrument sees. The cycles of both beats are at 8 frames a second and 4 frames a cycle.
pub fn times_worked_by_hand()
    ensures middle { time_of (record { beat = 0; tempo = 60000000 }
        ∷ record { beat = 4000000; tempo = 120000000 } ∷ []) 2000000 ≡ 1750000000 }
    ensures last { time_of (record { beat = 0; tempo = 60000000 }
        ∷ record { beat = 4000000; tempo = 120000000 } ∷ []) 4000000 ≡ 3000000000 }
    ensures cycles { (cycle_of 1750000000 8 4 ≡ 4) × (cycle_of 3000000000 8 4 ≡ 6) }
    ensures seconds { (seconds_of 1750000000 ≡ 114688) × (seconds_of 1250000000 ≡ 81920) }
    ensures jump { time_of (record { beat = 0; tempo = 60000000 }
        ∷ record { beat = 0; tempo = 120000000 } ∷ []) 2000000 ≡ 1000000000 }
    ensures steady { time_of [] 1500000 ≡ 1500000000 }
{}
