// The p-fields of a note of the score.
ghost use Rattle.std.specs.Prelude.{◌≡◌, ◌∷◌, IfOk};

use cs_base::{Num, Nums};
use cs_score::NoteValues;
use std::alloc::{AllocError, Global};
use std::marker::Model;

/// The p-fields of a note, from p1 on. Those from p4 on may be shared. Contracts see only the list of fields.
#[derive(Drop)]
pub struct NoteFields {
    p1: Num,
    p2: Num,
    p3: Num,
    more: NoteValues,
}

impl Model for NoteFields {
    ghost use Rattle.std.specs.Prelude.{List, ℤ, ◌∷◌};

    ghost Value = { List ℤ };

    ghost view = { λ f. f.p1 ∷ f.p2 ∷ f.p3 ∷ f.more };
}

impl NoteFields {
    /// p1, p2 and p3, followed by the fields from p4 on.
    pub fn new(p1: Num, p2: Num, p3: Num, more: NoteValues) -> NoteFields
        ensures { result ≡ p1 ∷ p2 ∷ p3 ∷ more }
    {
        NoteFields { p1, p2, p3, more }
    }

    /// Returns all fields as one list.
    pub fn to_nums(&self, alloc: Global) -> Result<Nums, AllocError>
        ensures { IfOk result (λ nums. nums ≡ self.now) }
    {
        let mut nums = Vec::with_capacity(alloc, 3)?;
        nums.push(self.p1)?;
        nums.push(self.p2)?;
        nums.push(self.p3)?;
        self.more.append_to(&mut nums)?;
        Ok(Nums::from_vec(nums))
    }
}
