// What doesn't depend on the width of samples: calls that do nothing, whose contracts are the laws.
ghost use Rattle.std.specs.Prelude.{◌≡◌, ℤ, ◌≤ℤ◌, pos};
ghost use Rattle.cs_base.specs.declared.width.SampleWidth.{SampleWidth};
ghost use Rattle.cs_wav.specs.Wav.{is_out_of_range};

/// Whether a mix value is out of range doesn't depend on the width of the samples, so files of either width count the
/// same values.
pub fn widths_count_alike()
    ensures { (one other : SampleWidth) (dbfs mix : ℤ) → pos 1 ≤ℤ dbfs
        → is_out_of_range one dbfs mix ≡ is_out_of_range other dbfs mix }
{}
