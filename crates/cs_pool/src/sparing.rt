// How long the caller plays without helpers after cycles in which no helper was useful.
ghost use Rattle.std.specs.Prelude.{◌≡◌, ◌≤◌, ◌-◌, ◌*◌, min, true, false};
ghost use Rattle.cs_pool.specs.Alone.{most_alone};

// The highest number of cycles in succession that the caller plays without helpers before it offers one
// again.
const MOST_ALONE: u32 = 128;

/// How many of the next cycles the caller plays without helpers, and how many after the next one that it
/// offers and that no helper begins. So short cycles neither wake helpers nor keep them looking, which would
/// take processor time from the caller, and a short cycle among long ones costs only one cycle without
/// helpers.
#[derive(Drop)]
pub(crate) struct Sparing {
    pub(crate) alone: u32,
    pub(crate) after_a_miss: u32,
    ghost few: { after_a_miss ≤ most_alone },
}

impl Sparing {
    /// Offers the next cycle; no offer was missed so far.
    pub(crate) fn new() -> Sparing
        ensures { (result.alone ≡ 0) × (result.after_a_miss ≡ 1) }
    {
        Sparing {
            alone: 0,
            after_a_miss: 1,
        }
    }

    /// Records that the caller has played a cycle without helpers.
    pub(crate) fn pass(&mut self)
        ensures alone { self.new.alone ≡ self.old.alone - 1 }
        ensures miss { self.new.after_a_miss ≡ self.old.after_a_miss }
    {
        self.alone = self.alone.saturating_sub(1);
    }

    /// Records that a cycle was offered. If a helper had `begun` before the caller was done, the next cycle
    /// is offered too; otherwise cycles without helpers follow, twice as many as after the miss before.
    pub(crate) fn learn(&mut self, begun: bool)
        ensures begun { begun ≡ true → (self.new.alone ≡ 0) × (self.new.after_a_miss ≡ 1) }
        ensures missed { begun ≡ false → (self.new.alone ≡ self.old.after_a_miss)
            × (self.new.after_a_miss ≡ min (2 * self.old.after_a_miss) most_alone) }
    {
        if begun {
            *self = Sparing::new();
            return;
        }
        self.alone = self.after_a_miss;
        self.after_a_miss = self.after_a_miss.saturating_mul(2).min(MOST_ALONE);
    }
}
