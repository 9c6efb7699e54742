// `table` and `tablei`: a table read at an index.
ghost use Rattle.std.specs.Prelude.{◌≡◌, ◌∷◌, length};
ghost use Rattle.cs_ugen.specs.Table.{index_step, table_start};
ghost use Rattle.cs_signal.specs.{Operands.operand_at, Operands.Lasts, Steps.run};

use crate::curve::Curve;
use crate::reading::Reading;
use cs_base::Num;
use cs_signal::Operand;
use std::marker::Model;

/// The state of a `table` or `tablei`, which is empty.
#[derive(Drop)]
pub(crate) struct TableReader;

impl Model for TableReader {
    ghost Value = { Unit {0} };

    ghost view = { λ unit. tt };
}

impl TableReader {
    /// The initial state.
    pub(crate) fn start() -> TableReader
        ensures { result ≡ tt }
    {
        TableReader
    }

    /// Performs one step at this index.
    #[inline(always)]
    pub(crate) fn step_on<R: Reading, C: Curve>(&mut self, ndx: Num, curve: &mut C) -> Num
        ensures value { (self.new, result) ≡ index_step R.on_index self.old (ndx ∷ C.points curve.old) }
        ensures same { C.points curve.new ≡ C.points curve.old }
        ensures kept { C.kept curve.old curve.new }
    {
        R::indexed(curve, ndx)
    }

    /// Performs one step for each frame of `out`.
    #[inline(always)]
    pub(crate) fn block_on<R: Reading, C: Curve>(
        &mut self,
        ndx: &Operand,
        curve: &mut C,
        out: &mut [Num],
    )
        requires { Lasts (length out.old) ndx.now }
        ensures value { (self.new, out.new)
            ≡ run (index_step R.on_index) (λ j. operand_at ndx.now j ∷ C.points curve.old) self.old 0 (length out.old) }
        ensures same { C.points curve.new ≡ C.points curve.old }
        ensures kept { C.kept curve.old curve.new }
    {
        let ndx = ndx.copied();
        for j in 0..out.len() {
            out[j] = self.step_on::<R, C>(ndx.value(j), curve);
        }
    }
}
