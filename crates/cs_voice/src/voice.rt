// A note as it sounds: a job that performs its code once in each control cycle.
ghost use Rattle.std.specs.Prelude.{◌≡◌, length, IfOk, IfSome, IfNone};
ghost use Rattle.cs_ir.specs.Waves.{silence};
ghost use Rattle.cs_machine.specs.{Outputs.outs, Rows.row_wave};
ghost use Rattle.cs_typed.specs.TypedTree.{header_of_head};
ghost use Rattle.cs_voice.specs.Memory.{MakeVoice, data_of};

use crate::body::VoiceBody;
use cs_base::{Head, Num, OutOfMemory};
use cs_cells::{Bank, Footprint, Job};
use std::alloc::Global;
use std::marker::Model;

/// A note that plays: a box, so that moving it moves only an address. Contracts see what it plays from and
/// its state as plain data.
#[derive(Drop)]
pub struct Voice<'p> {
    body: Box<VoiceBody<'p>>,
}

impl<'p> Model for Voice<'p> {
    ghost use Rattle.cs_voice.specs.VoiceData.{VoiceData};

    ghost Value = { VoiceData };

    ghost use Rattle.cs_voice.specs.Memory.{IsBody, data_of};

    ghost view = { λ v. data_of v.body.value };

    ghost invariant = { λ v. IsBody v.body.value };
}

impl<'p> Voice<'p> {
    /// Makes the voice of a note that has begun from its parts. Returns `OutOfMemory` if memory runs out;
    /// then its parts are dropped.
    pub(crate) fn of(alloc: Global, parts: VoiceBody<'p>) -> Result<Voice<'p>, OutOfMemory>
        requires { MakeVoice parts.number parts.age parts.until parts.stage parts.foot.now parts.code.now
            parts.fields.items parts.state }
        ensures { IfOk result (λ v. v ≡ data_of parts.entry) }
    {
        // For the prover: registers and channels are determined by their values.
        let _ = parts.state.regs.counts();
        let _ = parts.state.outs.len();
        Ok(Voice {
            body: Box::new(alloc, parts)?,
        })
    }

    /// Returns the number of its instrument.
    pub fn number(&self) -> u32
        ensures { result ≡ self.now.number }
    {
        self.body.number
    }

    /// Returns the number of notes that were started before it.
    pub fn age(&self) -> u64
        ensures { result ≡ self.now.age }
    {
        self.body.age
    }

    /// Returns the cycle in which its note has ended.
    pub fn until(&self) -> u64
        ensures { result ≡ self.now.until }
    {
        self.body.until
    }

    /// Returns the header of the piece in which it plays.
    pub(crate) fn head(&self) -> &Head
        ensures head { header_of_head result.now ≡ self.now.head }
        ensures frames { self.now.outs.ksmps ≡ result.now.ksmps }
    {
        self.body.stage.head
    }

    /// Returns whether it was turned off: then it ends with this cycle.
    pub fn ended(&self) -> bool
        ensures { result ≡ self.now.ended }
    {
        self.body.state.ended
    }

    /// Returns its samples in a channel in this cycle, one for each frame, or None if it is silent there.
    pub fn channel(&self, channel: usize) -> Option<&[Num]>
        ensures some { IfSome result (λ row. row_wave row.now ≡ outs self.now.outs channel) }
        ensures long { IfSome result (λ row. length row.now ≡ self.now.outs.ksmps) }
        ensures none { IfNone result (outs self.now.outs channel ≡ silence) }
    {
        self.body.state.outs.channel(channel)
    }
}

impl<'p> Job for Voice<'p> {
    ghost use Rattle.cs_voice.specs.{VoiceMeaning.voice_job, Jobs.voice_job_frames};

    ghost means = { voice_job };

    fn footprint(&self) -> &Footprint {
        self.body.foot
    }

    fn run<B: Bank>(&mut self, bank: &mut B) {
        self.body.run(bank);
    }

    ghost frames = { voice_job_frames };
}
