// Worked examples of codes. The function does nothing; its contract states the examples.
ghost use Rattle.std.specs.Prelude.{[]};
ghost use Rattle.cs_base.specs.declared.spaces.Spaces.{Spaces};
ghost use Rattle.cs_ir.specs.declared.op.Code.{Code};
ghost use Rattle.cs_code.specs.Examples.{IsMadeOf, counter, counter_counts, counter_init, counter_perf};
ghost use Rattle.cs_code.specs.Examples.{terms, terms_counts, terms_perf, tone, tone_counts, tone_init, tone_perf};
ghost use Rattle.cs_code.specs.Lowered.{IsCodeOf};

/// Worked examples: the codes of three small instruments, which have a variable that counts, a sum of four
/// terms, and an oscillator that is output.
pub fn codes_worked_by_hand()
    ensures counts { (spaces : Spaces) (init perf : Code)
        → IsMadeOf counter_init counter_counts init
        → IsMadeOf counter_perf counter_counts perf
        → IsCodeOf spaces 1 counter init perf }
    ensures sums { (spaces : Spaces) (init perf : Code)
        → IsMadeOf [] terms_counts init
        → IsMadeOf terms_perf terms_counts perf
        → IsCodeOf spaces 1 terms init perf }
    ensures sounds { (spaces : Spaces) (init perf : Code)
        → IsMadeOf tone_init tone_counts init
        → IsMadeOf tone_perf tone_counts perf
        → IsCodeOf spaces 1 tone init perf }
{}
