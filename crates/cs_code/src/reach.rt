// The tables, or the zak places, that an op may touch, by the literals among its values.
ghost use Rattle.std.specs.Prelude.{◌≡◌};
ghost use Rattle.cs_meaning.specs.Core.{unit_reach, table_reach, zak_reach};
ghost use Rattle.cs_code.specs.inner.Emitted.{known_at, known_of, table_known, expressions_of};
ghost use Rattle.cs_code.specs.inner.Emitted.{place_known, span_known, zak_known};
ghost use Rattle.cs_typed.specs.TypedTree as typed;

use cs_base::Spaces;
use cs_ir::{Reach, places_of};
use cs_typed::{TypedExpr, TypedPart};
use cs_words::{Opcode, Shape, signature_of};

/// The known facts about an argument: that it is missing, or, for a literal, its value rounded down.
#[derive(Clone, Copy)]
pub enum KnownArgument {
    Missing,
    Literal(u32),
    Other,
}

/// The tables that a unit may touch, by its settled values; none if its opcode reads no table.
pub fn unit_reach(opcode: Opcode, settled: &[&TypedExpr]) -> Reach
    ensures { result ≡ unit_reach opcode (expressions_of settled.now) }
{
    if signature_of(opcode).takes_table() {
        table_reach(settled)
    } else {
        Reach::Nothing
    }
}

/// The tables that may be touched, by settled values. The first of them is the number of a table.
#[tactic(auto, using(crate::proofs::Reaches::table_by))]
pub fn table_reach(settled: &[&TypedExpr]) -> Reach
    ensures { result ≡ table_reach (expressions_of settled.now) }
{
    table_of(known_first(settled))
}

/// The zak places that may be touched, by the values of an opcode with this shape.
#[tactic(auto, using(crate::proofs::Reaches::zak_by_known))]
pub fn zak_reach(spaces: Spaces, shape: Shape, values: &[&TypedExpr]) -> Reach
    ensures { result ≡ zak_reach spaces shape (expressions_of values.now) }
{
    zak_by(spaces, shape, known_first(values), known_second(values))
}

fn zak_by(spaces: Spaces, shape: Shape, first: KnownArgument, second: KnownArgument) -> Reach
    ensures { result ≡ zak_known spaces shape first second }
{
    match shape {
        Shape::ZakGet(space) => place_of(places_of(spaces, space), first),
        Shape::ZakPut(space) => place_of(places_of(spaces, space), second),
        Shape::ZakMix => place_of(spaces.audio, second),
        Shape::ZakClear(space) => span_of(places_of(spaces, space), first, second),
        _ => Reach::Nothing,
    }
}

fn table_of(table: KnownArgument) -> Reach
    ensures { result ≡ table_known table }
{
    match table {
        KnownArgument::Literal(n) => Reach::Span(n, n),
        KnownArgument::Missing | KnownArgument::Other => Reach::Any,
    }
}

fn place_of(places: u32, place: KnownArgument) -> Reach
    ensures { result ≡ place_known places place }
{
    match place {
        KnownArgument::Literal(n) => if n < places {
            Reach::Span(n, n)
        } else {
            Reach::Nothing
        },
        KnownArgument::Other => Reach::Any,
        KnownArgument::Missing => Reach::Nothing,
    }
}

fn span_of(places: u32, first: KnownArgument, last: KnownArgument) -> Reach
    ensures { result ≡ span_known places first last }
{
    match (first, last) {
        (KnownArgument::Literal(n), KnownArgument::Literal(m)) => {
            if n < places && n <= m {
                Reach::Span(n, m.min(places - 1))
            } else {
                Reach::Nothing
            }
        }
        (_, KnownArgument::Missing) => Reach::Nothing,
        _ => Reach::Any,
    }
}

// The known facts about the first of some values, and about the second.
fn known_first(values: &[&TypedExpr]) -> KnownArgument
    ensures { result ≡ known_at (expressions_of values.now) 0 }
{
    match values {
        [e, ..] => known_of(e),
        [] => KnownArgument::Missing,
    }
}

fn known_second(values: &[&TypedExpr]) -> KnownArgument
    ensures { result ≡ known_at (expressions_of values.now) 1 }
{
    match values {
        [_, rest @ ..] => known_first(rest),
        [] => KnownArgument::Missing,
    }
}

fn known_of(e: &TypedExpr) -> KnownArgument
    ensures { result ≡ known_of (typed.expression e.now) }
{
    match &e.what {
        TypedPart::Number(value) => KnownArgument::Literal(
            value.whole_below().unsigned_abs() as u32,
        ),
        _ => KnownArgument::Other,
    }
}
