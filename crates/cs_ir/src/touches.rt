// Tables and zak places by their numbers, and the shared resources that ops touch, whichever of them a piece
// has.
ghost use Rattle.std.specs.Prelude.{ℕ, ◌≡◌, ◌↔◌, [], IfOk, if◌then◌else◌};
ghost use Rattle.std.specs.List.{Contains};
ghost use Rattle.cs_ir.specs.{Routines.AreRoutines, Routines.library_in, Touched.covers, declared.touches.Touch.Touch};
ghost use Rattle.cs_ir.specs.{Flat.flat, Touched.named, Touched.named_by, Resources.NameTheSame, Resources.act_writes};
ghost use Rattle.cs_ir.specs.Resources.{Stock, act_uses, ops_touch, ops_use, ops_write, places_of, reaches, zak_place};
ghost use Rattle.cs_ir.specs.inner.Naming.{access_of, invoked as invoked_by, key_of, reach_key, step_touches};

use crate::{Act, Reach, Routine, Step};
use cs_base::{OutOfMemory, Res, Spaces};
use cs_words::{Shape, Space, signature_of};
use std::alloc::Global;

/// A shared resource, or a set of them, that an op touches.
#[derive(Clone, Copy)]
pub enum Touch {
    One(Res),
    /// The live tables within a reach.
    Tables(Reach),
    /// The places of a zak space within a reach.
    Places(Space, Reach),
}

/// The resources that ops may read or write, and the resources that they may write, each listed once.
#[derive(Drop)]
pub struct Touches {
    pub used: Vec<Touch>,
    pub written: Vec<Touch>,
}

impl Reach {
    /// Whether a number is within the reach.
    pub fn contains(self, number: usize) -> bool
        ensures { result ≡ reaches self number }
    {
        match self {
            Reach::Nothing => false,
            Reach::Span(first, last) => first as usize <= number && number <= last as usize,
            Reach::Any => true,
        }
    }
}

/// The place of a zak space with a number.
pub fn zak_place(space: Space, number: usize) -> Res
    ensures { result ≡ zak_place space number }
{
    match space {
        Space::Control => Res::ZakK(number),
        Space::Audio => Res::ZakA(number),
    }
}

/// The number of places of a zak space.
pub fn places_of(spaces: Spaces, space: Space) -> u32
    ensures { result ≡ places_of spaces space }
{
    match space {
        Space::Control => spaces.control,
        Space::Audio => spaces.audio,
    }
}

// The question about touched resources: those that are read or written, or only those that are written.
#[derive(Clone, Copy)]
enum Access {
    Use,
    Write,
}

/// The resources that steps touch, directly or through the routines that they invoke.
pub(crate) fn touches_of(
    alloc: Global,
    routines: &[Routine],
    steps: &[Step],
) -> Result<Touches, OutOfMemory>
    requires { AreRoutines routines.now }
    ensures used { IfOk result (λ t. (stock : Stock) → NameTheSame (named stock t.used.items)
        (ops_use stock (flat (library_in routines.now) steps.now))) }
    ensures written { IfOk result (λ t. (stock : Stock) → NameTheSame (named stock t.written.items)
        (ops_write stock (flat (library_in routines.now) steps.now))) }
{
    let invoked = invoked_by(alloc, steps)?;
    Ok(Touches {
        used: touched(alloc, Access::Use, routines, steps, &invoked)?,
        written: touched(alloc, Access::Write, routines, steps, &invoked)?,
    })
}

fn invoked_by(alloc: Global, steps: &[Step]) -> Result<Vec<u32>, OutOfMemory>
    ensures { IfOk result (λ ns. (n : ℕ) → Contains ns.items n ↔ Contains (invoked_by steps.now) n) }
{
    let mut numbers = Vec::new(alloc);
    for step in steps {
        match step {
            Step::Do(_) => {}
            Step::Invoke(call) => numbers.push(call.routine)?,
        }
    }
    numbers.sort_unstable();
    numbers.dedup();
    Ok(numbers)
}

// The resources that steps touch, if they invoke the routines with these numbers.
fn touched(
    alloc: Global,
    access: Access,
    routines: &[Routine],
    steps: &[Step],
    invoked: &[u32],
) -> Result<Vec<Touch>, OutOfMemory>
    requires routines { AreRoutines routines.now }
    requires invoked { (n : ℕ) → Contains invoked.now n ↔ Contains (invoked_by steps.now) n }
    ensures { IfOk result (λ ts. (stock : Stock) → NameTheSame (named stock ts.items)
        (ops_touch (access_of access) stock (flat (library_in routines.now) steps.now))) }
{
    let mut touches = Vec::new(alloc);
    for step in steps {
        if let Some(touch) = own_touch(access, step) {
            touches.push(touch)?;
        }
    }
    for number in invoked {
        if let Some(routine) = routines.get(*number as usize) {
            touches.extend_from_slice(match access {
                Access::Use => &routine.touches.used,
                Access::Write => &routine.touches.written,
            })?;
        }
    }
    touches.sort_unstable_by_key(|touch: &Touch| touch.key());
    touches.dedup_by_key(|touch: &mut Touch| touch.key());
    touches.shrink_to_fit();
    Ok(touches)
}

impl Touch {
    /// Whether this touch includes a resource, in a piece with these zak spaces.
    pub fn covers(self, spaces: Spaces, res: Res) -> bool
        ensures { result ≡ covers spaces self res }
    {
        match (self, res) {
            (Touch::One(one), _) => res.same(one),
            (Touch::Tables(reach), Res::Table(n)) => reach.contains(n),
            (Touch::Places(Space::Control, reach), Res::ZakK(n)) => {
                n < spaces.control as usize && reach.contains(n)
            }
            (Touch::Places(Space::Audio, reach), Res::ZakA(n)) => {
                n < spaces.audio as usize && reach.contains(n)
            }
            _ => false,
        }
    }

    // A key that distinguishes any two touches.
    fn key(&self) -> (u8, u8, usize, usize)
        ensures { result ≡ key_of self.now }
    {
        match self {
            Touch::One(res) => (0, res.kind(), res.number(), 0),
            Touch::Tables(reach) => reach_key(1, *reach),
            Touch::Places(Space::Control, reach) => reach_key(2, *reach),
            Touch::Places(Space::Audio, reach) => reach_key(3, *reach),
        }
    }
}

fn reach_key(what: u8, reach: Reach) -> (u8, u8, usize, usize)
    ensures { result ≡ reach_key what reach }
{
    match reach {
        Reach::Nothing => (what, 0, 0, 0),
        Reach::Span(first, last) => (what, 1, first as usize, last as usize),
        Reach::Any => (what, 2, 0, 0),
    }
}

fn own_touch(access: Access, step: &Step) -> Option<Touch>
    ensures { (stock : Stock) → named_by stock result ≡ step_touches (access_of access) stock step.now }
{
    match (access, step) {
        (_, Step::Invoke(_)) => None,
        (Access::Use, Step::Do(op)) => use_of(&op.act),
        (Access::Write, Step::Do(op)) => {
            if writes(&op.act) {
                use_of(&op.act)
            } else {
                None
            }
        }
    }
}

fn use_of(act: &Act) -> Option<Touch>
    ensures { (stock : Stock) → named_by stock result ≡ act_uses stock act.now }
{
    match *act {
        Act::Load(res) | Act::Save(res) => Some(Touch::One(res)),
        Act::Store(reach) => Some(Touch::Tables(reach)),
        Act::Unit(opcode, _, reach) if signature_of(opcode).takes_table() => {
            Some(Touch::Tables(reach))
        }
        Act::Zak(opcode, reach) => match signature_of(opcode).shape() {
            Shape::ZakGet(space) | Shape::ZakPut(space) | Shape::ZakClear(space) => {
                Some(Touch::Places(space, reach))
            }
            Shape::ZakMix => Some(Touch::Places(Space::Audio, reach)),
            _ => None,
        },
        _ => None,
    }
}

fn writes(act: &Act) -> bool
    ensures { (stock : Stock) → act_writes stock act.now ≡ (if result then act_uses stock act.now else []) }
{
    match *act {
        Act::Save(_) | Act::Store(_) => true,
        Act::Zak(opcode, _) => !matches!(signature_of(opcode).shape(), Shape::ZakGet(_)),
        _ => false,
    }
}
