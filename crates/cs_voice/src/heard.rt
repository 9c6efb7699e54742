// The sum of the samples of several notes, whoever adds them up.
use crate::{Voice, mix};
use cs_row::Heard;

impl<'p> Heard for Voice<'p> {
    ghost use Rattle.cs_voice.specs.Mixing.{gives, shape, keeps_shape};

    ghost gives = { gives };

    ghost shape = { shape };

    fn sum(jobs: &[Self], block: &mut [i64]) {
        let head = jobs[0].head();
        mix(jobs, head.ksmps as usize, head.nchnls as usize, block);
    }

    ghost keeps = { keeps_shape };
}
