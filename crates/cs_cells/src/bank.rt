// A row of cells that are accessed by address.
ghost use Rattle.std.specs.Prelude.{◌≡◌, ℕ, ℤ, pos, List, ◌<◌, ◌≤◌, ◌+◌, length, map, slice_index_or, slice_set};
ghost use Rattle.std.specs.List.{range_with_len};
ghost use Rattle.cs_cells.specs.{Access.Access, Cells.cell, Cells.with_row, Cells.values};

use cs_base::Num;

/// Cells that a job reads and writes by address, from 0. A cell holds a number of the profile.
pub trait Bank {
    // The part of a bank that no call changes, which determines how its cells may be accessed.
    ghost Rest: { Type 0 };

    ghost rest: { Self → Rest };

    ghost access: { Rest → Access };

    // The value of each cell, by address.
    ghost cells: { Self → List ℤ };

    /// Returns the value of the cell at address `addr`.
    fn get(&mut self, addr: u32) -> Num
        requires { (access (rest self.old)).can_get addr }
        ensures value { result ≡ slice_index_or (cells self.old) addr (pos 0) }
        ensures cells { cells self.new ≡ cells self.old }
        ensures rest { rest self.new ≡ rest self.old };

    /// Sets the cell at address `addr`.
    fn set(&mut self, addr: u32, value: Num)
        requires { (access (rest self.old)).can_set addr }
        ensures cells { cells self.new ≡ slice_set (cells self.old) addr value }
        ensures rest { rest self.new ≡ rest self.old };

    /// Copies consecutive cells, starting at address `first`, into a row.
    fn get_row(&mut self, first: u32, row: &mut [Num])
        requires get { (j : ℕ) → j < length row.old → (access (rest self.old)).can_get (first + j) }
        requires there { (j : ℕ) → j < length row.old → first + j < length (cells self.old) }
        requires small { first + length row.old ≤ 65536 }
        ensures row { row.new ≡ map (cell (cells self.old)) (range_with_len first (length row.old)) }
        ensures cells { cells self.new ≡ cells self.old }
        ensures rest { rest self.new ≡ rest self.old }
    {
        for j in 0..row.len() {
            row[j] = self.get(first + j as u32);
        }
    }

    /// Copies a row into consecutive cells, starting at address `first`.
    fn set_row(&mut self, first: u32, row: &[Num])
        requires set { (j : ℕ) → j < length row.now → (access (rest self.old)).can_set (first + j) }
        requires there { (j : ℕ) → j < length row.now → first + j < length (cells self.old) }
        requires small { first + length row.now ≤ 65536 }
        ensures cells { cell (cells self.new) ≡ with_row first (length row.now) (cell row.now) (cell (cells self.old)) }
        ensures rest { rest self.new ≡ rest self.old }
    {
        for j in 0..row.len() {
            self.set(first + j as u32, row[j]);
        }
    }

    // The number of cells is the access's count. This clause is below the last method, so each bank has to
    // prove it.
    ghost counted: { (bank : Self) → length (cells bank) ≡ (access (rest bank)).count };
}

/// A bank over a vector of words, one cell for each word, which holds the cell's raw value in two's
/// complement. Every cell may be read and set.
#[derive(Drop)]
pub struct PlainBank<'w> {
    words: &'w mut Vec<u64>,
}

impl<'w> PlainBank<'w> {
    /// Returns a bank over these words.
    pub fn new(words: &'w mut Vec<u64>) -> PlainBank<'w>
        ensures same { result.words.ghost_name ≡ words.entry.ghost_name }
        ensures words { result.words.now ≡ words.old }
    {
        PlainBank { words }
    }
}

impl Bank for PlainBank<'_> {
    ghost use Rattle.std.proofs.lemmas.List.{length-map};
    ghost use Rattle.cs_cells.specs.{Access.full_access, Cells.signed};

    // The name of the borrow, and the number of words.
    ghost Rest = { ℕ × ℕ };

    ghost rest = { λ b. (b.words.ghost_name, length b.words.now.items) };

    ghost access = { λ r. full_access r.1 };

    ghost cells = { λ b. values b.words.now.items };

    fn get(&mut self, addr: u32) -> Num {
        Num::of_raw(self.words[addr as usize].cast_signed())
    }

    fn set(&mut self, addr: u32, value: Num) {
        self.words[addr as usize] = value.raw().cast_unsigned();
    }

    ghost counted = { λ b. length-map b.words.now.items signed };
}
