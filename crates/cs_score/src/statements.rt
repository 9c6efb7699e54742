// Reads each statement in the state that the statements before it have left.
ghost use Rattle.std.specs.Prelude.{ℕ, ◌≡◌, Some, None, Ok, OnOk, IfOk, nat_eq};
ghost use Rattle.std.specs.{HashMap.get, Option.option_or};
ghost use Rattle.cs_score.specs.declared.row.StatementLetter.TheVariants as letter;
ghost use Rattle.cs_score.specs.Statements.{size_for};
ghost use Rattle.cs_score.specs.inner.Past.{AskedAnswers, Follows, HasRangeOrNothing, asked_after};

use crate::ScoreWhat;
use crate::carry::read_note;
use crate::last::LastNote;
use crate::past::Past;
use crate::row::{Row, StatementLetter};
use crate::statement_fault::StatementFault;
use crate::table::{Sizes, base, first_size, refusal, written_table};
use crate::tempo::tempo;
use cs_base::ScoreKind;
use std::alloc::{AllocError, Global};
use std::collections::HashMap;
use std::mem::replace;

impl Past {
    /// The state before the first statement.
    pub fn new(alloc: Global) -> Past
        ensures base { result.base ≡ 0 }
        ensures sizes { (n : ℕ) → get nat_eq result.sizes n ≡ None }
        ensures last { result.last.instr ≡ None }
    {
        Past {
            base: 0,
            sizes: HashMap::new(alloc),
            last: LastNote::none(alloc),
        }
    }

    /// Reads a statement in this state, and updates the state. Returns `None` for a statement that only
    /// changes the state.
    pub fn read(&mut self, alloc: Global, row: Row) -> Result<Option<ScoreWhat>, StatementFault>
        ensures value { AskedAnswers result (asked_after self.old row row.letter) }
        ensures follows { OnOk result (Follows self.old row self.new) }
        ensures range { IfOk result HasRangeOrNothing }
    {
        match row.letter {
            StatementLetter::Note => self.note(alloc, row),
            StatementLetter::Table => self.table(alloc, row),
            StatementLetter::Tempo => {
                let what = tempo(alloc, row.fields.as_slice())?;
                self.last.instr = None;
                Ok(Some(what))
            }
            StatementLetter::Base => {
                self.base = base(alloc, row.fields.as_slice())?;
                self.last.instr = None;
                Ok(None)
            }
            StatementLetter::Section => {
                self.base = 0;
                self.last.instr = None;
                Ok(Some(ScoreWhat::Section))
            }
            StatementLetter::End if row.fields.is_empty() => {
                self.last.instr = None;
                Ok(None)
            }
            StatementLetter::End | StatementLetter::Other => Err(ScoreKind::NotInProfile.into()),
            StatementLetter::Stray => Err(ScoreKind::BadStatement.into()),
        }
    }

    fn note(&mut self, alloc: Global, row: Row) -> Result<Option<ScoreWhat>, StatementFault>
        requires { row.letter ≡ letter.Note }
        ensures value { AskedAnswers result (asked_after self.old row letter.Note) }
        ensures follows { OnOk result (Follows self.old row self.new) }
        ensures range { IfOk result HasRangeOrNothing }
    {
        let last = replace(&mut self.last, LastNote::none(alloc));
        let read = read_note(alloc, self.base, last, row.fields)?;
        self.last = read.last;
        Ok(Some(read.what))
    }

    fn table(&mut self, alloc: Global, row: Row) -> Result<Option<ScoreWhat>, StatementFault>
        requires { row.letter ≡ letter.Table }
        ensures value { AskedAnswers result (asked_after self.old row letter.Table) }
        ensures follows { OnOk result (Follows self.old row self.new) }
        ensures range { IfOk result HasRangeOrNothing }
    {
        let what = written_table(alloc, row.fields.as_slice())?;
        if let Some(kind) = refusal(&self.sizes, &what) {
            return Err(kind.into());
        }
        keep_size(&mut self.sizes, &what)?;
        self.last.instr = None;
        Ok(Some(what))
    }
}

// Records the size of a table unless its number already has one.
fn keep_size(sizes: &mut Sizes, what: &ScoreWhat) -> Result<(), AllocError>
    ensures { OnOk result ((n : ℕ) → get nat_eq sizes.new n
        ≡ option_or (get nat_eq sizes.old n) (size_for n (Ok what.now))) }
{
    match what {
        ScoreWhat::Table { number, size, .. } if first_size(sizes, *number).is_none() => {
            sizes.insert(*number, *size)?;
            Ok(())
        }
        _ => Ok(()),
    }
}
