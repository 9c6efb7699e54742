// Properties of the definitions that hold for all numbers and texts, each stated once: functions that do
// nothing, and whose contracts are the laws.
ghost use Rattle.std.specs.Prelude.{◌≡◌, ◌↔◌, ◌⊎◌, true, ℤ, pos, neg_ℤ, ◌+ℤ◌, ◌*ℤ◌, ◌≤ℤ◌, ◌<ℤ◌, ℕ, List, Some, None};
ghost use Rattle.std.specs.{Prelude.codes, Prelude.◌++◌, Prelude.take, List.All};
ghost use Rattle.cs_base.specs.{declared.decimal.Decimal.Decimal, Decimals.decimal_of, Decimals.raw_of_decimal};
ghost use Rattle.cs_base.specs.{Comments.comment_len, Comments.is_open_comment, Lines.line_after, Lines.lines_of};
ghost use Rattle.cs_base.specs.{declared.resource.Rate.Rate, declared.resource.Res.Res};
ghost use Rattle.cs_base.specs.Numbers.{IsRaw, clamp, least, one, floor_div, sum_of, difference_of, product_of};
ghost use Rattle.cs_base.specs.Numbers.{quotient_of, remainder_of, floor_of, int_of, frac_of, abs_of};
ghost use Rattle.cs_base.specs.Rates.{same_rate, same_res, within, faster};

/// Every result is in the range of numbers, and `clamp` leaves a value in range unchanged.
pub fn results_in_range()
    ensures clamp { (z : ℤ) → IsRaw (clamp z) }
    ensures kept { (z : ℤ) → IsRaw z → clamp z ≡ z }
    ensures sum { (x y : ℤ) → IsRaw (sum_of x y) }
    ensures difference { (x y : ℤ) → IsRaw (difference_of x y) }
    ensures product { (x y : ℤ) → IsRaw (product_of x y) }
    ensures quotient { (x y : ℤ) → IsRaw (quotient_of x y) }
    ensures remainder { (x y : ℤ) → IsRaw y → IsRaw (remainder_of x y) }
    ensures floor { (x : ℤ) → IsRaw x → IsRaw (floor_of x) }
    ensures int { (x : ℤ) → IsRaw x → IsRaw (int_of x) }
    ensures frac { (x : ℤ) → IsRaw x → IsRaw (frac_of x) }
    ensures abs { (x : ℤ) → IsRaw (abs_of x) }
    ensures decimal { (text : List ℕ) (d : Decimal) → decimal_of text ≡ Some d → IsRaw (raw_of_decimal d) }
{}

/// A quotient is rounded down. A remainder is 0 or has the sign of the divisor, and is smaller than the
/// divisor in absolute value.
pub fn division_rounds_down()
    ensures rounded { (n d : ℤ) → pos 0 <ℤ d → ((d *ℤ floor_div n d) ≤ℤ n) × (n <ℤ ((d *ℤ floor_div n d) +ℤ d)) }
    ensures sign_above { (x y : ℤ) → pos 0 <ℤ y → (pos 0 ≤ℤ remainder_of x y) × (remainder_of x y <ℤ y) }
    ensures sign_below { (x y : ℤ) → y <ℤ pos 0 → (y <ℤ remainder_of x y) × (remainder_of x y ≤ℤ pos 0) }
{}

/// A number is its floor plus a part that is at least 0 and less than one. It is also the sum of its `int`,
/// which lies between 0 and the number, and its `frac`.
pub fn parts_of_a_number()
    ensures floor { (x : ℤ) → (floor_of x ≤ℤ x) × (x <ℤ (floor_of x +ℤ one)) }
    ensures whole { (x : ℤ) → (n : ℤ) × (floor_of x ≡ n *ℤ one) }
    ensures int_from_zero { (x : ℤ) → pos 0 ≤ℤ x → (pos 0 ≤ℤ int_of x) × (int_of x ≤ℤ x) × (x <ℤ (int_of x +ℤ one)) }
    ensures int_below_zero { (x : ℤ) → IsRaw x → x <ℤ pos 0
        → (int_of x ≤ℤ pos 0) × (x ≤ℤ int_of x) × (int_of x <ℤ (x +ℤ one)) }
    ensures int_and_frac { (x : ℤ) → int_of x +ℤ frac_of x ≡ x }
{}

/// `within` orders the rates, and `faster` returns the greater of two rates in that order.
pub fn rates_are_ordered()
    ensures once { (r s : Rate) → within r s ≡ true → within s r ≡ true → r ≡ s }
    ensures chain { (r s t : Rate) → within r s ≡ true → within s t ≡ true → within r t ≡ true }
    ensures either { (r s : Rate) → (within r s ≡ true) ⊎ (within s r ≡ true) }
    ensures one_of_two { (r s : Rate) → (faster r s ≡ r) ⊎ (faster r s ≡ s) }
    ensures above_two { (r s : Rate) → (within r (faster r s) ≡ true) × (within s (faster r s) ≡ true) }
{}

/// The tests for the same rate and for the same resource return true if and only if the two are equal.
pub fn sameness_is_equality()
    ensures rate { (r s : Rate) → (same_rate r s ≡ true) ↔ (r ≡ s) }
    ensures resource { (r s : Res) → (same_res r s ≡ true) ↔ (r ≡ s) }
{}

/// Each line of a text has the line number at which its first byte is found, and the line number after a text
/// is the same whether it is counted in one step or in two.
pub fn lines_are_those_of_the_file()
    ensures numbers { (first : ℕ) (text : List ℕ)
        → All (λ l. l.number ≡ line_after first (take l.at text)) (lines_of first text) }
    ensures behind { (first : ℕ) (before text : List ℕ)
        → line_after (line_after first before) text ≡ line_after first (before ++ text) }
{}

/// The examples of docs/MEANING.md and docs/LANGUAGE.md, computed with the definitions: a number n is `n *ℤ
/// one`.
pub fn worked_examples()
    ensures third { quotient_of (neg_ℤ one) (pos 3 *ℤ one) ≡ neg_ℤ (pos 21846) }
    ensures left { remainder_of (neg_ℤ one) (pos 3 *ℤ one) ≡ pos 2 *ℤ one }
    ensures by_zero { quotient_of (neg_ℤ one) (pos 0) ≡ least }
    ensures half { decimal_of (codes ".5") ≡ Some (record { whole = 0; billionths = 500000000 }) }
    ensures ninth { decimal_of (codes "1.0000000019") ≡ Some (record { whole = 1; billionths = 1 }) }
    ensures power { decimal_of (codes "1e3") ≡ None }
    ensures closed { comment_len (codes "/* a */ b") ≡ 7 }
    ensures to_line_feed { comment_len (codes "// a\nb") ≡ 4 }
    ensures left_open { (is_open_comment (codes "/*/") ≡ true) × (comment_len (codes "/*/") ≡ 3) }
{}
