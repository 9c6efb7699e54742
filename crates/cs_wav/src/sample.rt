// Converts one mix value to one sample.
ghost use Rattle.std.specs.Prelude.{◌≡◌, ◌≤◌, ◌<◌, ◌+◌, ◌^◌, ◌≤ℤ◌, ◌<ℤ◌, pos, neg_ℤ, ◌*ℤ◌, ◌++◌, length, true, take};
ghost use Rattle.std.specs.Prelude.{drop, not, unsigned_abs, if◌then◌else◌};
ghost use Rattle.std.specs.{Option.ForSome, Int.int_div_euclid, Int.is_negative};
ghost use Rattle.cs_base.specs.Widths.{bytes_of, greatest_of, least_of};
ghost use Rattle.cs_wav.specs.Wav.{full_scale, is_out_of_range, little_bytes, complement, level, sample, sample_bytes};

use byteorder::{ByteOrder, LittleEndian};
use cs_base::{Divisor, Num, SampleWidth};

// The conversion of mix values to samples of one width, with one value of full scale.
#[derive(Clone, Copy)]
pub(crate) struct Scale {
    // The width of the samples.
    pub(crate) width: SampleWidth,
    dbfs: i64,
    divisor: Option<Divisor>,
    ghost low: { pos 1 ≤ℤ dbfs },
    ghost high: { unsigned_abs dbfs < 2 ^ 47 },
    ghost known: { ForSome divisor (λ d. d.value ≡ dbfs) },
    ghost near: { ForSome divisor (λ d. unsigned_abs (d.value *ℤ full_scale width) ≤ 2 ^ 61) },
}

impl Scale {
    // The scale of samples of width `width`, with `dbfs` as full scale.
    pub(crate) fn of(width: SampleWidth, dbfs: Num) -> Scale
        requires { pos 0 <ℤ dbfs }
        ensures width { result.width ≡ width }
        ensures dbfs { result.dbfs ≡ dbfs }
    {
        Scale {
            width,
            dbfs: dbfs.raw(),
            divisor: near_divisor(width, dbfs.raw()),
        }
    }

    // Writes a mix value as a sample into `out`, starting at index `at`. Returns 1 if the value was clipped,
    // and 0 otherwise.
    #[inline(always)]
    pub(crate) fn put_value(&self, out: &mut [u8], at: usize, value: i64) -> u32
        requires { at + bytes_of self.now.width ≤ length out.old }
        ensures written { out.new ≡ take at out.old ++ (sample_bytes self.now.width self.now.dbfs value
            ++ drop (at + bytes_of self.now.width) out.old) }
        ensures out_of_range { result ≡ (if is_out_of_range self.now.width self.now.dbfs value then 1 else 0) }
    {
        if self.holds(value) {
            put_sample(out, at, self.width, self.level(value));
            0
        } else {
            put_sample(out, at, self.width, end_of_range(self.width, value));
            1
        }
    }

    // Whether a value is within full scale, so that its level is within the range of samples and needs no
    // clipping.
    #[inline(always)]
    fn holds(&self, value: i64) -> bool
        ensures within { result ≡ true → (neg_ℤ self.now.dbfs ≤ℤ value) × (value <ℤ self.now.dbfs) }
        ensures in_range { result ≡ not (is_out_of_range self.now.width self.now.dbfs value) }
    {
        -self.dbfs <= value && value < self.dbfs
    }

    // The value in steps of a sample, rounded down.
    #[inline(always)]
    fn level(&self, value: i64) -> i64
        requires low { neg_ℤ self.now.dbfs ≤ℤ value }
        requires high { value <ℤ self.now.dbfs }
        ensures { result ≡ level self.now.width self.now.dbfs value }
    {
        match self.divisor {
            Some(divisor) => divisor.divide(value * full_scale(self.width)),
            None => wide_level(full_scale(self.width), self.dbfs, value),
        }
    }
}

// The value of full scale as a divisor, if the product of full scale and any value within it is at most 2^61
// in absolute value.
fn near_divisor(width: SampleWidth, dbfs: i64) -> Option<Divisor>
    requires low { pos 1 ≤ℤ dbfs }
    requires high { unsigned_abs dbfs < 2 ^ 47 }
    ensures known { ForSome result (λ d. d.value ≡ dbfs) }
    ensures near { ForSome result (λ d. unsigned_abs (d.value *ℤ full_scale width) ≤ 2 ^ 61) }
{
    if dbfs <= MOST_PRODUCT / full_scale(width) {
        Some(Divisor::of(dbfs))
    } else {
        None
    }
}

const MOST_PRODUCT: i64 = 2_305_843_009_213_693_952;

// Full scale: one more than the greatest sample.
fn full_scale(width: SampleWidth) -> i64
    ensures { result ≡ full_scale width }
{
    width.greatest() + 1
}

// The level, computed with a 128-bit product.
fn wide_level(full: i64, dbfs: i64, value: i64) -> i64
    requires above_zero { pos 0 <ℤ dbfs }
    requires bounded { unsigned_abs (int_div_euclid (value *ℤ full) dbfs) < 2 ^ 62 }
    ensures { result ≡ int_div_euclid (value *ℤ full) dbfs }
{
    (i128::from(value) * i128::from(full)).div_euclid(i128::from(dbfs)) as i64
}

// The limit to which a value outside full scale is clipped.
fn end_of_range(width: SampleWidth, value: i64) -> i64
    ensures { result ≡ (if is_negative value then least_of width else greatest_of width) }
{
    if value < 0 {
        width.least()
    } else {
        width.greatest()
    }
}

#[inline(always)]
fn put_sample(out: &mut [u8], at: usize, width: SampleWidth, sample: i64)
    requires least { least_of width ≤ℤ sample }
    requires greatest { sample ≤ℤ greatest_of width }
    requires room { at + bytes_of width ≤ length out.old }
    ensures { out.new ≡ take at out.old
        ++ (little_bytes (bytes_of width) (complement (bytes_of width) sample) ++ drop (at + bytes_of width) out.old) }
{
    LittleEndian::write_int(&mut out[at..], sample, width.bytes() as usize);
}
