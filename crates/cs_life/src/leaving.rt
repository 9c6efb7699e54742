// Which notes leave.

/// The reason why notes leave: when a cycle begins, because they have ended in it or in an earlier one; or
/// because they were turned off.
#[derive(Clone, Copy)]
pub(crate) enum Leaving {
    Over { cycle: u32 },
    TurnedOff,
}
