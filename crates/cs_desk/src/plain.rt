// Cells in plain memory, and how they get there and back.
ghost use Rattle.std.specs.Prelude.{◌≡◌, ◌<◌, ℕ, length, IfOk};
ghost use Rattle.cs_cells.specs.Cells.{values};

use cs_base::Num;
use cs_cells::Bank;
use std::alloc::{AllocError, Global};

/// Returns the numbers that words encode.
pub(crate) fn numbers_in(alloc: Global, words: &[u64]) -> Result<Vec<Num>, AllocError>
    ensures { IfOk result (λ numbers. numbers.items ≡ values words.now) }
{
    let mut numbers = Vec::with_capacity(alloc, words.len())?;
    for at in 0..words.len() {
        numbers.push_reserved(Num::of_raw(words[at].cast_signed()));
    }
    Ok(numbers)
}

/// Returns the numbers in the `count` cells of a bank.
pub(crate) fn numbers_of<B: Bank>(
    alloc: Global,
    bank: &mut B,
    count: u32,
) -> Result<Vec<Num>, AllocError>
    requires get { (a : ℕ) → a < count → (B.access (B.rest bank.old)).can_get a }
    requires count { length (B.cells bank.old) ≡ count }
    ensures numbers { IfOk result (λ numbers. numbers.items ≡ B.cells bank.old) }
    ensures cells { B.cells bank.new ≡ B.cells bank.old }
    ensures rest { B.rest bank.new ≡ B.rest bank.old }
{
    let mut numbers = Vec::with_capacity(alloc, count as usize)?;
    for addr in 0..count {
        numbers.push_reserved(bank.get(addr));
    }
    Ok(numbers)
}

/// Sets the `count` cells of a bank to these numbers.
pub(crate) fn fill<B: Bank>(bank: &mut B, numbers: &[Num], count: u32)
    requires set { (a : ℕ) → a < count → (B.access (B.rest bank.old)).can_set a }
    requires cells { length (B.cells bank.old) ≡ count }
    requires numbers { length numbers.now ≡ count }
    ensures cells { B.cells bank.new ≡ numbers.now }
    ensures rest { B.rest bank.new ≡ B.rest bank.old }
{
    for addr in 0..count {
        bank.set(addr, numbers[addr as usize]);
    }
}
