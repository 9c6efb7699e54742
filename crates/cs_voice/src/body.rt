// A voice as it lies in memory.
ghost use Rattle.std.specs.Prelude.{◌≡◌, length};
ghost use Rattle.cs_cells.specs.{Access.Allows, Meaning.Uses, Meaning.Writes};
ghost use Rattle.cs_ir.specs.Waves.{silence};
ghost use Rattle.cs_machine.specs.Outputs.{outs};
ghost use Rattle.cs_voice.specs.Memory.{IsBody, data_of};
ghost use Rattle.cs_voice.specs.VoiceMeaning.{after, leaves, voice_job};

use crate::cycle::perform;
use crate::stage::Stage;
use cs_base::Num;
use cs_cells::{Bank, Footprint};
use cs_ir::Code;
use cs_machine::{NoteSetting, State};

/// What a note performs, and its state: the number of its instrument, its age (the number of notes that were
/// started before it), the cycle in which it has ended, the stage that it plays in, its footprint, the code
/// that it runs in each control cycle, its p-fields from p1 on, and the state of that code.
#[derive(Drop)]
pub(crate) struct VoiceBody<'p> {
    pub(crate) number: u32,
    pub(crate) age: u64,
    pub(crate) until: u64,
    pub(crate) stage: Stage<'p>,
    pub(crate) foot: &'p Footprint,
    pub(crate) code: &'p Code,
    pub(crate) fields: Vec<Num>,
    pub(crate) state: State<'p>,
}

impl VoiceBody<'_> {
    /// Performs a control cycle, at whose start the channels are silent.
    pub(crate) fn run<B: Bank>(&mut self, bank: &mut B)
        requires body { IsBody self.old }
        requires access { Allows (B.access (B.rest bank.old)) (Uses voice_job (data_of self.old))
            (Writes voice_job (data_of self.old)) }
        ensures job { data_of self.new ≡ after (data_of self.old) (B.cells bank.old) }
        ensures cells { B.cells bank.new ≡ leaves (data_of self.old) (B.cells bank.old) }
        ensures rest { B.rest bank.new ≡ B.rest bank.old }
        ensures body { IsBody self.new }
    {
        begin(&mut self.state);
        let at = NoteSetting {
            head: self.stage.head,
            layout: self.stage.layout,
            spaces: self.stage.spaces,
            fields: &self.fields,
        };
        perform(&mut self.state, &at, &self.code.ops, bank);
        // For the prover: registers and channels are determined by their values.
        let _ = self.state.regs.counts();
        let _ = self.state.outs.len();
    }
}

// Makes each channel silent, and leaves everything else as it is.
fn begin(state: &mut State<'_>)
    ensures silent { outs state.new.outs ≡ (λ n. silence) }
    ensures channels { length state.new.outs.rows ≡ length state.old.outs.rows }
    ensures frames { state.new.outs.ksmps ≡ state.old.outs.ksmps }
    ensures same { state.new ≡ record state.old { outs = state.new.outs } }
{
    state.outs.clear();
}
