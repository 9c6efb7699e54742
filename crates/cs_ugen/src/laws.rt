// Facts about every unit. These functions do nothing; their contracts state the facts.
ghost use Rattle.cs_signal.specs.Steps.{AnswersByFormula, IsUnit};
ghost use Rattle.cs_ugen.specs.Units.{IsUnitOpcode, Stands, gen, unit_start, unit_step};
ghost use Rattle.cs_words.specs.declared.catalogue.Opcode.{Opcode};

/// A unit that starts has performed no steps. If it has performed some steps, one more step returns the
/// opcode's formula of all their inputs, the new one included. Afterwards the unit has performed the longer
/// list of steps, under the same arguments.
pub fn units_meet_their_formulas()
    ensures { (o : Opcode) → IsUnitOpcode o → IsUnit (gen o) (unit_start o) unit_step (λ u. Stands u o) }
{}

/// So each result of a block is the formula of all inputs up to its own, and afterwards the unit has
/// performed all these steps.
pub fn blocks_meet_their_formulas()
    ensures { (o : Opcode) → IsUnitOpcode o → AnswersByFormula (gen o) unit_step (λ u. Stands u o) }
{}
