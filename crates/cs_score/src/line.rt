// Reads the lines of a text one by one.
ghost use Rattle.std.specs.Prelude.{◌≡◌, ◌<◌, ◌≤◌, ◌+◌, ◌-◌, ◌++◌, take, length, IfOk};
ghost use Rattle.std.specs.Option.{option_to_list};
ghost use Rattle.cs_base.specs.{Limits.most_csd_bytes, Limits.most_score_bytes, Lines.line_after};
ghost use Rattle.cs_score.specs.{Rows.row_at, inner.Left.rows_from};

use crate::row::{Row, StatementLetter, fields_of};
use cs_base::{Excerpt, blanks_len, feeds, line_len, next_len};
use std::alloc::{AllocError, Global};

/// A line that was read: its statement, if it has one, and the place and line number of the text after it.
#[derive(Drop)]
pub struct LineRead {
    pub row: Option<Row>,
    pub next: usize,
    pub line: u32,
}

/// Reads the line that begins at place `at`. `plain` is the text without its comments, and `line` the line
/// number there.
pub fn read_line(
    alloc: Global,
    text: &Excerpt,
    plain: &[u8],
    at: usize,
    line: u32,
) -> Result<LineRead, AllocError>
    requires first { text.now.first_line ≤ most_csd_bytes + 1 }
    requires small { length text.now.bytes ≤ most_score_bytes }
    requires plain { length plain.now ≡ length text.now.bytes }
    requires at { at < length plain.now }
    requires line { line ≡ line_after text.now.first_line (take at text.now.bytes) }
    ensures row { IfOk result (λ r. rows_from text.now plain.now at
        ≡ option_to_list r.row ++ rows_from text.now plain.now r.next) }
    ensures next { IfOk result (λ r. (at < r.next) × (r.next ≤ length plain.now)) }
    ensures line { IfOk result (λ r. r.line ≡ line_after text.now.first_line (take r.next text.now.bytes)) }
{
    let rest = &plain[at..];
    let bytes = &rest[..line_len(rest)];
    let indent = blanks_len(bytes);
    let letter = at + indent;
    let next = at + next_len(rest);
    let row_line = line_on(text, line, at, letter);
    let row = row_at(alloc, row_line, &bytes[indent..])?;
    Ok(LineRead {
        row,
        next,
        line: line_on(text, row_line, letter, next),
    })
}

// The line number of place `to`, counted on from an earlier place.
fn line_on(text: &Excerpt, line: u32, from: usize, to: usize) -> u32
    requires first { text.now.first_line ≤ most_csd_bytes + 1 }
    requires small { length text.now.bytes ≤ most_score_bytes }
    requires from { from ≤ to }
    requires to { to ≤ length text.now.bytes }
    requires line { line ≡ line_after text.now.first_line (take from text.now.bytes) }
    ensures { result ≡ line_after text.now.first_line (take to text.now.bytes) }
{
    line + feeds(&text.bytes()[from..to])
}

// The statement of a line, if it has one after its blanks: its letter and its fields.
fn row_at(alloc: Global, line: u32, text: &[u8]) -> Result<Option<Row>, AllocError>
    ensures { IfOk result (λ row. option_to_list row ≡ row_at line text.now) }
{
    match text {
        [] => Ok(None),
        [first, others @ ..] => Ok(Some(Row {
            line,
            letter: StatementLetter::of(*first),
            fields: fields_of(alloc, others)?,
        })),
    }
}
