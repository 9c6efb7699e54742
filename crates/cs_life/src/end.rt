// Notes leave: those that have ended when a cycle begins, and those that were turned off when it ends.
ghost use Rattle.std.specs.Prelude.{◌≡◌, filter, length};
ghost use Rattle.cs_cells.specs.Cells.{Cells};
ghost use Rattle.cs_piece_meaning.specs.{Course.turned_off, Moments.Composition, Moments.Moment};
ghost use Rattle.cs_life.specs.{Leaving.stays, Leaving.without, Standing.StandsFor};

use crate::leaving::Leaving;
use crate::life::Life;
use cs_voice::Voice;

impl<'t> Life<'t> {
    /// Removes the notes that were turned off in the cycle. `voices` are the voices that play, in performing
    /// order.
    pub fn end_cycle(&self, voices: &mut Vec<Voice<'t>>)
        ensures ended { (c : Composition) (cells : Cells) (m : Moment) → StandsFor c self.now voices.old.items cells m
            → StandsFor c self.now voices.new.items cells (turned_off m) }
        ensures same { length voices.new.items ≡ length voices.old.items → voices.new.items ≡ voices.old.items }
    {
        self.leave(voices, Leaving::TurnedOff);
    }

    /// Removes the notes that leave for this reason.
    pub(crate) fn leave(&self, voices: &mut Vec<Voice<'t>>, leaving: Leaving)
        ensures left { (c : Composition) (cells : Cells) (m : Moment) → StandsFor c self.now voices.old.items cells m
            → StandsFor c self.now voices.new.items cells (without leaving m) }
        ensures same { length voices.new.items ≡ length voices.old.items → voices.new.items ≡ voices.old.items }
    {
        let_go(voices, leaving);
    }
}

// Drops the voices of notes that leave.
fn let_go(voices: &mut Vec<Voice<'_>>, leaving: Leaving)
    ensures { voices.new.items ≡ filter (stays leaving) voices.old.items }
{
    voices.retain(|voice| stays(leaving, voice));
}

// Returns whether the note of a voice stays.
fn stays(leaving: Leaving, voice: &Voice<'_>) -> bool
    ensures { result ≡ stays leaving voice.now }
{
    match leaving {
        Leaving::Over { cycle } => u64::from(cycle) < voice.until(),
        Leaving::TurnedOff => !voice.ended(),
    }
}
