// The tables of a piece, as a note that begins finds them.
ghost use Rattle.std.specs.Prelude.{◌≡◌, ◌&&◌, ◌==◌, not, true, unsigned_abs, length};
ghost use Rattle.std.specs.{Int.is_negative, Option.option_map};
ghost use Rattle.cs_meaning.specs.Pieces.{table_number};
ghost use Rattle.cs_voice.specs.{Tables.table_at, Tables.tables_of, inner.Begun.FindsMade};

use crate::PieceTable;
use cs_base::Num;
use cs_machine::NoteSetting;

/// What a note that begins finds; a separate list says for each table whether it has been made by now.
#[derive(Clone, Copy)]
pub(crate) struct Finds<'s, 'p> {
    pub at: NoteSetting<'s>,
    /// The tables of the piece.
    pub tables: &'p [PieceTable],
}

/// Returns the first table with a number, or None if it hasn't been made by now.
pub(crate) fn find_made<'p>(
    tables: &'p [PieceTable],
    made: &[bool],
    number: i64,
) -> Option<&'p PieceTable>
    requires { length made.now ≡ length tables.now }
    ensures { FindsMade (tables_of tables.now made.now) number (option_map (λ t. table_at t.now true) result) }
{
    for place in 0..tables.len() {
        let table = &tables[place];
        if has_number(table, number) {
            if made[place] {
                return Some(table);
            }
            return None;
        }
    }
    None
}

fn has_number(table: &PieceTable, number: i64) -> bool
    ensures { result ≡ (not (is_negative number) && table.now.number == unsigned_abs number) }
{
    !number.is_negative() && table.number == number.unsigned_abs() as usize
}

/// Returns the number of the table that a unit needs: the integer part of its first settled value.
pub(crate) fn table_number(settled: &[Num]) -> i64
    ensures { result ≡ table_number settled.now }
{
    match settled.get(0) {
        Some(value) => value.whole_below(),
        None => 0,
    }
}
