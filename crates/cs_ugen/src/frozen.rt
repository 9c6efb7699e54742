// A table that isn't changed after it is made.
ghost use Rattle.std.specs.Prelude.{◌≡◌, ◌≤◌, ◌%◌, IfOk, true, refl, length};
ghost use Rattle.std.proofs.Common.{◌∙◌};
ghost use Rattle.cs_gen.specs.{Points.len_of, Tables.curve_of};
ghost use Rattle.cs_ugen.specs.Points.{AreShort, IsShort, curve_len, is_len};

use crate::curve::Curve;
use cs_base::Num;
use cs_gen::Points;
use cs_signal::argument;
use std::alloc::AllocError;
use std::marker::Model;

/// The curve of a table that isn't changed after it is made: its points, followed by the guard point, and
/// whether all of them fit into 32 bits. The guard point is the last point if the size is one more than a
/// power of two, otherwise the first. Contracts see the points of the table.
#[derive(Drop)]
pub struct FrozenTable {
    curve: Vec<Num>,
    size: usize,
    short: bool,
}

impl Model for FrozenTable {
    ghost use Rattle.std.specs.Prelude.{◌≡◌, ◌≤◌, ℤ, List, length, take, true};
    ghost use Rattle.cs_gen.specs.Tables.{curve_of};
    ghost use Rattle.cs_signal.specs.Operands.{argument};
    ghost use Rattle.cs_ugen.specs.Points.{AreShort};

    ghost Value = { List ℤ };

    ghost view = { λ t. take t.size t.curve.items };

    ghost invariant = { λ t. (t.size ≤ length t.curve.items)
        × (t.curve.items ≡ curve_of (take t.size t.curve.items)) × (t.short ≡ true → AreShort t.curve.items) };
}

impl FrozenTable {
    /// The table of these points. It reads each of them, and allocates memory for the guard point.
    pub fn new(points: Points) -> Result<FrozenTable, AllocError>
        ensures { IfOk result (λ t. t ≡ points) }
    {
        let size = points.len();
        let curve = with_guard(points.into_vec())?;
        let short = are_short(&curve);
        Ok(FrozenTable { curve, size, short })
    }
}

// The points followed by the guard point, unless it is already the last point.
fn with_guard(points: Vec<Num>) -> Result<Vec<Num>, AllocError>
    ensures { IfOk result (λ curve. curve.items ≡ curve_of points.items) }
{
    let mut curve = points;
    if curve.len() % 2 == 1 {
        return Ok(curve);
    }
    let guard = argument(&curve, 0);
    curve.reserve_exact(1)?;
    curve.push_reserved(guard);
    Ok(curve)
}

fn are_short(points: &[Num]) -> bool
    ensures { result ≡ true → AreShort points.now }
{
    for place in 0..points.len() {
        if !is_short(points[place]) {
            return false;
        }
    }
    true
}

/// Whether a value fits into 32 bits.
#[inline(always)]
pub(crate) fn is_short(x: Num) -> bool
    ensures { result ≡ true → IsShort x }
{
    -2_147_483_648 <= x.raw() && x.raw() <= 2_147_483_647
}

/// A frozen table as a curve.
#[derive(Clone, Copy)]
pub struct Frozen<'p> {
    points: &'p [Num],
    curve: &'p [Num],
    short: bool,
    ghost power: { is_len (curve_len curve.now) ≡ true },
    ghost curve_is: { curve.now ≡ curve_of points.now },
    ghost short_is: { short ≡ true → AreShort curve.now },
}

impl<'p> Frozen<'p> {
    /// The curve of a table. It takes the same time for every size.
    pub fn new(table: &'p FrozenTable) -> Frozen<'p>
        requires { is_len (len_of (length table.now)) ≡ true }
        ensures { result.points.now ≡ table.now }
    {
        Frozen {
            points: &table.curve[..table.size],
            curve: &table.curve,
            short: table.short,
        }
    }
}

impl Curve for Frozen<'_> {
    const MAY_BE_SHORT: bool = true;

    ghost points = { λ f. curve_of f.points.now };

    ghost kept = { λ before after. after ≡ before };

    #[inline(always)]
    fn len(&self) -> usize {
        self.curve.len() - 1
    }

    #[inline(always)]
    fn at(&mut self, place: usize) -> Num {
        self.curve[place]
    }

    #[inline(always)]
    fn short(&self) -> Option<ShortCurve<'_>> {
        if self.short {
            Some(ShortCurve { frozen: *self })
        } else {
            None
        }
    }

    ghost stays = { λ x. refl };

    ghost chain = { λ x y z p q. q ∙ p };
}

/// A frozen table as a curve whose points all fit into 32 bits.
#[derive(Clone, Copy)]
pub struct ShortCurve<'p> {
    frozen: Frozen<'p>,
    ghost short_is: { AreShort frozen.curve.now },
}

impl Curve for ShortCurve<'_> {
    ghost points = { λ f. f.frozen.curve.now };

    ghost kept = { λ before after. after ≡ before };

    #[inline(always)]
    fn len(&self) -> usize {
        self.frozen.len()
    }

    #[inline(always)]
    fn at(&mut self, place: usize) -> Num {
        let mut frozen = self.frozen;
        frozen.at(place)
    }

    #[inline(always)]
    fn is_short(&self) -> bool {
        true
    }

    ghost stays = { λ x. refl };

    ghost chain = { λ x y z p q. q ∙ p };
}
