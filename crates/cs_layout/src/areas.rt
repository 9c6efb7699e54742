// The layout of a piece.
ghost use Rattle.std.specs.{List.flat_map, Prelude.Err, Prelude.OnOk};
ghost use Rattle.std.specs.Prelude.{◌≡◌, ◌<◌, ◌≤◌, ◌+◌, ◌*◌, ◌^◌, ◌++◌, length, sum_by, IfErr, IfNone, IfOk, IfSome};
ghost use Rattle.cs_base.specs.Limits.{most_resources, most_words};
ghost use Rattle.cs_base.specs.declared.fault.Or.TheVariants as or;
ghost use Rattle.cs_cells.specs.Areas.{limit_passed};
ghost use Rattle.cs_layout.specs.Layouts.{AreApart, areas_of, laid_from, of_tables};
ghost use Rattle.cs_layout.specs.inner.Groups.{groups_of, members, res_of};
ghost use Rattle.cs_typed.specs.TypedTree.{shared_names};

use cs_base::{Limit, LimitHit, MOST_RESOURCES, MOST_WORDS, Or, OutOfMemory, Res, Spaces};
use cs_cells::{Area, Layout};
use cs_typed::Globals;
use std::alloc::Global;

/// A table whose points are cells, because notes may write it or the score defines it again.
#[derive(Clone, Copy)]
pub struct LiveTable {
    pub number: usize,
    /// The number of points.
    pub size: u32,
}

/// Returns the layout of a piece with `ksmps` frames in a control cycle, these variables and channels, zak
/// spaces and live tables; no two tables have the same number. More than 4,096 areas are a limit error of
/// resources, and otherwise more than 65,536 cells are one of words, both at line 0.
pub fn layout(
    alloc: Global,
    ksmps: u32,
    globals: &Globals,
    spaces: Spaces,
    live: &[LiveTable],
) -> Result<Layout, Or<LimitHit>>
    requires { AreApart live.now }
    ensures areas { IfOk result (λ l. l ≡ areas_of ksmps (shared_names globals.now) spaces live.now) }
    ensures limit { IfSome (limit_passed (areas_of ksmps (shared_names globals.now)
        spaces live.now)) (λ h. result ≡ Err (or.Fault h)) }
    // Within the limits the only error is out of memory.
    ensures memory { IfNone (limit_passed (areas_of ksmps (shared_names globals.now)
        spaces live.now)) (IfErr result (λ e. e ≡ or.OutOfMemory)) }
{
    let groups = groups_of(ksmps, globals, spaces);
    if count_of(&groups, live) > MOST_RESOURCES as u128 {
        return Err(Or::Fault(LimitHit::at_no_line(Limit::Resources)));
    }
    if words_of(&groups, live) > MOST_WORDS as u128 {
        return Err(Or::Fault(LimitHit::at_no_line(Limit::Words)));
    }
    let areas = areas_of(alloc, &groups, live)?;
    Layout::build(alloc, &areas)
}

// Resources that are numbered from 0 in a piece.
#[derive(Clone, Copy)]
enum GroupKind {
    Gi,
    Gk,
    Ga,
    Control,
    Sound,
    ZakK,
    ZakA,
}

impl GroupKind {
    fn res(self, number: usize) -> Res
        ensures { result ≡ res_of self number }
    {
        match self {
            GroupKind::Gi => Res::Gi(number),
            GroupKind::Gk => Res::Gk(number),
            GroupKind::Ga => Res::Ga(number),
            GroupKind::Control => Res::Control(number),
            GroupKind::Sound => Res::Sound(number),
            GroupKind::ZakK => Res::ZakK(number),
            GroupKind::ZakA => Res::ZakA(number),
        }
    }
}

// `count` resources of a kind, each with `cells` cells.
#[derive(Clone, Copy)]
struct Group {
    kind: GroupKind,
    count: usize,
    cells: u32,
}

fn groups_of(ksmps: u32, globals: &Globals, spaces: Spaces) -> [Group; 7]
    ensures { result ≡ groups_of ksmps (shared_names globals.now) spaces }
{
    [
        many(GroupKind::Gi, globals.variables.init.len(), 1),
        many(GroupKind::Gk, globals.variables.control.len(), 1),
        many(GroupKind::Ga, globals.variables.audio.len(), ksmps),
        many(GroupKind::Control, globals.control.len(), 1),
        many(GroupKind::Sound, globals.sound.len(), ksmps),
        many(GroupKind::ZakK, spaces.control as usize, 1),
        many(GroupKind::ZakA, spaces.audio as usize, ksmps),
    ]
}

fn many(kind: GroupKind, count: usize, cells: u32) -> Group
    ensures { result ≡ record { kind = kind; count = count; cells = cells } }
{
    Group { kind, count, cells }
}

// Returns the number of resources.
fn count_of(groups: &[Group], live: &[LiveTable]) -> u128
    requires { length groups.now ≤ 7 }
    ensures { result ≡ sum_by (λ g. g.count) groups.now + length live.now }
{
    let mut count: u128 = live.len() as u128;
    for group in groups {
        count += group.count as u128;
    }
    count
}

// Returns the number of cells of all resources.
fn words_of(groups: &[Group], live: &[LiveTable]) -> u128
    requires groups { length groups.now ≤ 7 }
    requires few { sum_by (λ g. g.count) groups.now + length live.now ≤ most_resources }
    ensures { result ≡ sum_by (λ g. g.count * g.cells) groups.now + sum_by (λ t. t.size) live.now }
{
    let mut words: u128 = 0;
    for group in groups {
        words += cells_of(*group);
    }
    for table in live {
        words += u128::from(table.size);
    }
    words
}

// Returns the number of cells of a group.
fn cells_of(group: Group) -> u128
    ensures value { result ≡ group.count * group.cells }
    ensures bounded { result < 2 ^ 96 }
{
    group.count as u128 * u128::from(group.cells)
}

fn few_cells_of(group: Group) -> u32
    requires { group.count * group.cells ≤ most_words }
    ensures { result ≡ group.count * group.cells }
{
    cells_of(group) as u32
}

fn areas_of(alloc: Global, groups: &[Group], live: &[LiveTable]) -> Result<Vec<Area>, OutOfMemory>
    requires { sum_by (λ g. g.count * g.cells) groups.now + sum_by (λ t. t.size) live.now ≤ most_words }
    ensures { IfOk result (λ v. v.items ≡ laid_from 0 (flat_map members groups.now ++ of_tables live.now)) }
{
    let mut areas = Vec::new(alloc);
    let mut next = 0;
    for group in groups {
        push_group(&mut areas, *group, next)?;
        next += few_cells_of(*group);
    }
    for table in live {
        areas.push(area(Res::Table(table.number), next, table.size))?;
        next += table.size;
    }
    Ok(areas)
}

// Appends the areas of a group; the first one starts at address `first`.
fn push_group(areas: &mut Vec<Area>, group: Group, first: u32) -> Result<(), OutOfMemory>
    requires { first + group.count * group.cells ≤ most_words }
    ensures { OnOk result (areas.new.items ≡ areas.old.items ++ laid_from first (members group)) }
{
    let mut next = first;
    for number in 0..group.count {
        areas.push(area(group.kind.res(number), next, group.cells))?;
        next += group.cells;
    }
    Ok(())
}

fn area(res: Res, first: u32, length: u32) -> Area
    ensures { result ≡ record { res = res; first = first; length = length } }
{
    Area { res, first, length }
}
