// What all notes of a cycle produce together, from the sums of their rows.
ghost use Rattle.std.specs.Prelude.{◌≡◌, ◌≤◌, ◌<◌, ◌+◌, ◌+ℤ◌, ℕ, pos, slice_index_or, length, map, All};
ghost use Rattle.cs_base.specs.{Limits.most_notes, Numbers.total};
ghost use Rattle.cs_row.specs.{Heard.AreSumsOf, Heard.IsSumOf, Laws.all_notes};

use crate::heard::Heard;
use crate::row::Row;

/// Adds up the sums of the rows and writes the result into the block: the sum of what the rows' notes
/// produce, if they have run.
pub fn sum_rows<'g, J: Heard, G>(rows: &[Row<'g, J, G>], block: &mut [i64])
    requires few { length (all_notes rows.now) ≤ most_notes }
    requires long { All (λ r. length r.sum ≡ length block.old) rows.now }
    ensures sums { (at : ℕ) → at < length block.old
        → slice_index_or block.new at (pos 0) ≡ total (map (λ r. slice_index_or r.sum at (pos 0)) rows.now) }
    ensures long { length block.new ≡ length block.old }
{
    block.fill(0);
    for at in 0..rows.len() {
        add_sum(rows[at].sum(), block);
    }
}

// Adds the sum of some notes to the sum of other notes in `block`.
fn add_sum(sum: &[i64], block: &mut [i64])
    requires long { length sum.now ≡ length block.old }
    requires small { (n : ℕ) × (m : ℕ) × AreSumsOf n sum.now × AreSumsOf m block.old × (n + m ≤ most_notes) }
    ensures sums { (at : ℕ) → at < length block.old → slice_index_or block.new at (pos 0)
        ≡ slice_index_or block.old at (pos 0) +ℤ slice_index_or sum.now at (pos 0) }
    ensures long { length block.new ≡ length block.old }
{
    for at in 0..block.len() {
        block[at] = add(block[at], sum[at]);
    }
}

fn add(one: i64, other: i64) -> i64
    requires { (n : ℕ) × (m : ℕ) × IsSumOf n one × IsSumOf m other × (n + m ≤ most_notes) }
    ensures { result ≡ one +ℤ other }
{
    one + other
}
