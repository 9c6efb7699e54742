// Acts that write to the output channels, and the end of a note.
ghost use Rattle.std.specs.Prelude.{◌≡◌, ◌<◌, [], ◌∷◌, length, true};
ghost use Rattle.cs_base.specs.Rates.{is_audio};
ghost use Rattle.cs_ir.specs.{Registers.rate_at, Validity.has_register};
ghost use Rattle.cs_ir.specs.declared.op.Act.TheVariants as act;
ghost use Rattle.cs_ir.specs.declared.register.Reg.{Reg};
ghost use Rattle.cs_meaning.specs.Pieces.{index};
ghost use Rattle.cs_machine.specs.{States.DoesAnywhere, States.HasRoom, inner.Channels.channel_below};

use crate::index;
use crate::state::State;
use cs_base::Num;
use cs_ir::Reg;

impl State<'_> {
    /// Adds an audio register to a channel, counted from 0: the act `Out`.
    #[inline(always)]
    pub fn send(&mut self, channel: usize, x: Reg)
        requires channel { channel < length self.old.outs.rows }
        requires x { has_register self.old.regs.counts x ≡ true }
        requires sound { is_audio (rate_at x) ≡ true }
        requires room { HasRoom self.old }
        ensures { (into : Reg) → DoesAnywhere (act.Out channel) into (x ∷ []) self.old self.new }
    {
        self.outs.give(channel, self.regs.row(x));
    }

    /// Adds an audio register to the channel whose number, counted from 1, is in another register; if there
    /// is no such channel it adds nothing: the act `OutAt`.
    #[inline(always)]
    pub fn send_at(&mut self, number: Reg, x: Reg)
        requires number { has_register self.old.regs.counts number ≡ true }
        requires x { has_register self.old.regs.counts x ≡ true }
        requires sound { is_audio (rate_at x) ≡ true }
        requires room { HasRoom self.old }
        ensures { (into : Reg) → DoesAnywhere act.OutAt into (number ∷ x ∷ []) self.old self.new }
    {
        if let Some(below) = channel_below(self.regs.first(number), self.outs.len()) {
            self.outs.give(below, self.regs.row(x));
        }
    }

    /// Ends the note with this cycle: the act `Turnoff`.
    pub fn turn_off(&mut self)
        ensures { (into : Reg) → DoesAnywhere act.Turnoff into [] self.old self.new }
    {
        self.ended = true;
    }
}

// Returns the index of the channel, counted from 0, that a value names, counted from 1, or None if there is
// no such channel.
fn channel_below(value: Num, channels: usize) -> Option<usize>
    ensures { result ≡ channel_below channels (index value) }
{
    match index(value) {
        Some(n) if 1 <= n && n <= channels => Some(n - 1),
        _ => None,
    }
}
