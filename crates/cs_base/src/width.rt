// The width of a sample in a sound file.
ghost use Rattle.std.specs.Prelude.{◌≡◌};
ghost use Rattle.cs_base.specs.Widths.{bytes_of, greatest_of, least_of};

/// The number of bytes of a sample in the sound file.
#[derive(Clone, Copy)]
pub enum SampleWidth {
    /// 16 bits.
    TwoBytes,
    /// 24 bits.
    ThreeBytes,
}

impl SampleWidth {
    /// Returns the number of bytes of a sample: 2 or 3.
    pub fn bytes(self) -> u32
        ensures { result ≡ bytes_of self }
    {
        match self {
            SampleWidth::TwoBytes => 2,
            SampleWidth::ThreeBytes => 3,
        }
    }

    /// Returns the greatest sample: 32,767 or 8,388,607.
    pub fn greatest(self) -> i64
        ensures { result ≡ greatest_of self }
    {
        match self {
            SampleWidth::TwoBytes => 32_767,
            SampleWidth::ThreeBytes => 8_388_607,
        }
    }

    /// Returns the least sample: -32,768 or -8,388,608.
    pub fn least(self) -> i64
        ensures { result ≡ least_of self }
    {
        match self {
            SampleWidth::TwoBytes => -32_768,
            SampleWidth::ThreeBytes => -8_388_608,
        }
    }
}
