// One pass over the text, piece by piece; each piece begins at the end of the previous one.
ghost use Rattle.std.specs.Prelude.{◌≡◌, ◌≤◌, ◌<◌, ◌+◌, ◌-◌, ◌^◌, length, IfOk, OnOk, ◌++◌, count_by};
ghost use Rattle.cs_base.specs.declared.fault.OrcFault.{OrcFault};
ghost use Rattle.cs_base.specs.declared.fault.Or.TheVariants as or;
ghost use Rattle.cs_base.specs.{Limits.most_csd_bytes, Limits.most_orchestra_bytes, Lines.excerpt, Lines.is_feed};
ghost use Rattle.cs_lex.specs.Lexed.{Lexed, LexFault, end_of, merged};
ghost use Rattle.cs_lex.specs.inner.Front.{given, fed_by};

use crate::front::Front;
use crate::{Mark, Token, Tokens};
use cs_base::{Excerpt, Or, OrcFault, feeds};
use std::alloc::{AllocError, Global};

/// Reads the tokens of an orchestra of at most 1,048,576 bytes, or returns its first fault.
pub fn lex(alloc: Global, text: &Excerpt) -> Result<Tokens, Or<OrcFault>>
    requires { length text.now.bytes ≤ most_orchestra_bytes }
    ensures tokens { IfOk result (λ tokens. Lexed text.now tokens) }
    ensures fault { (f : OrcFault) → result ≡ Err (or.Fault f) → LexFault text.now f.line f.kind }
{
    read(alloc, text.first_line(), text.bytes())
}

// Reads the tokens of a text that begins on line `first_line`.
fn read(alloc: Global, first_line: u32, source: &[u8]) -> Result<Tokens, Or<OrcFault>>
    requires line { first_line ≤ most_csd_bytes + 1 }
    requires small { length source.now ≤ most_orchestra_bytes }
    ensures tokens { IfOk result (λ tokens. Lexed (excerpt first_line source.now) tokens) }
    ensures fault { (f : OrcFault) → result ≡ Err (or.Fault f)
        → LexFault (excerpt first_line source.now) f.line f.kind }
{
    let mut tokens = Tokens::new(alloc);
    let mut at: usize = 0;
    let mut line = first_line;
    // Whether the last token was a line feed, or there is none yet.
    let mut fed = true;
    while at < source.len() {
        let text = &source[at..];
        let piece = match Front::of(text) {
            Ok(piece) => piece,
            Err(kind) => return Err(Or::Fault(OrcFault { line, kind })),
        };
        let to = at + piece.len;
        fed = keep(&mut tokens, fed, piece.mark, at as u32, to as u32, line)?;
        line = line_past(line, &source[at..to]);
        at = to;
    }
    tokens.push(end_of(source, line))?;
    Ok(tokens)
}

// Adds the token of a piece, but no NewLine if the last token was a line feed or there is none (`fed`).
// Returns the new value of `fed`.
fn keep(
    tokens: &mut Tokens,
    fed: bool,
    mark: Option<Mark>,
    from: u32,
    to: u32,
    line: u32,
) -> Result<bool, AllocError>
    ensures fed { IfOk result (λ now. now ≡ fed_by fed mark) }
    ensures tokens { OnOk result (tokens.new ≡ tokens.old ++ merged fed (given mark from to line)) }
{
    match mark {
        None => Ok(fed),
        Some(mark) => {
            let newline = matches!(mark, Mark::NewLine);
            if !(fed && newline) {
                tokens.push(Token {
                    mark,
                    from,
                    to,
                    line,
                })?;
            }
            Ok(newline)
        }
    }
}

// The line on which the text after `piece` begins, if the piece begins on `line`.
fn line_past(line: u32, piece: &[u8]) -> u32
    requires { line + length piece.now < 2 ^ 32 }
    ensures { result ≡ line + count_by is_feed piece.now }
{
    line + feeds(piece)
}

// The token End, if the text ends on this line.
fn end_of(source: &[u8], line: u32) -> Token
    requires small { length source.now ≤ most_orchestra_bytes }
    requires line { count_by is_feed source.now ≤ line }
    ensures { result ≡ end_of (excerpt (line - count_by is_feed source.now) source.now) }
{
    let last = &source[source.len().saturating_sub(1)..];
    let at = source.len() as u32;
    Token {
        mark: Mark::End,
        from: at,
        to: at,
        line: line - feeds(last),
    }
}
