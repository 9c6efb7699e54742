// A piece, ready to be performed.
ghost use Rattle.std.specs.Prelude.{◌≡◌, eqb, map, IfNone, IfOk, List, OnOk, Err, None, Some};
ghost use Rattle.std.specs.List.{All, AllZip, IsDistinct};
ghost use Rattle.cs_base.specs.declared.fault.Or.TheVariants as or;
ghost use Rattle.cs_base.specs.declared.limit.LimitHit.{LimitHit};
ghost use Rattle.cs_cells.specs.{Areas.limit_passed, declared.footprint.Footprint.Footprint};
ghost use Rattle.cs_code.specs.Lowered.{AreInstrumentsOf, all_numbers};
ghost use Rattle.cs_ir.specs.Instruments.{Numbered};
ghost use Rattle.cs_layout.specs.Layouts.{AreApart, areas_of};
ghost use Rattle.cs_name_laws.specs.Names.{NamesWhatThereIs};
ghost use Rattle.cs_piece.specs.Compositions.{areas_in, live_in};
ghost use Rattle.cs_piece.specs.{Setups.AreOfOneSize, Setups.AskForFew, Tables.table_of, Tables.tables_in};
ghost use Rattle.cs_rwset.specs.Zones.{AreZones, IsFootOver};
ghost use Rattle.cs_tempo.specs.Performable.{IsActInRange, IsPerformable};
ghost use Rattle.cs_typed.specs.TypedTree as typed;
ghost use Rattle.cs_typed.specs.WellRated.{IsWellRated};

use crate::erased::ErasedOrchestra;
use crate::tables::tables_of;
use cs_base::{Head, LimitHit, Or, OutOfMemory, Spaces};
use cs_cells::Layout;
use cs_code::{Lowered, lower};
use cs_layout::{LiveTable, layout};
use cs_rwset::{Zoned, find_zones};
use cs_tempo::{Event, Plot};
use cs_typed::{Globals, TypedOrc};
use cs_voice::PieceTable;
use std::alloc::Global;
use std::marker::Model;

/// Everything that a piece needs to be performed. Contracts see its parts as plain data.
#[derive(Drop)]
pub struct Setup {
    pub(crate) head: Head,
    pub(crate) spaces: Spaces,
    /// The typed orchestra, only for contracts.
    pub(crate) orchestra: ErasedOrchestra,
    pub(crate) plot: Plot,
    /// Each table of the plot once, in ascending order of number.
    pub(crate) tables: Vec<PieceTable>,
    /// The layout of the cells that notes share.
    pub(crate) layout: Layout,
    pub(crate) lowered: Lowered,
    /// The zones of the layout, and the footprints of everything that is performed.
    pub(crate) zoned: Zoned,
}

impl Model for Setup {
    ghost use Rattle.std.specs.Coded.{codes};
    ghost use Rattle.cs_piece.specs.Setups.{IsSetup, SetupData};
    ghost use Rattle.cs_typed.specs.contracts.tree.TypedWhat as e;

    ghost Value = { SetupData };

    ghost coded = { Prim.hlevel (codes, e.the_row.coded) };

    ghost use Rattle.cs_piece.specs.inner.Data.{data_of};

    ghost view = { data_of };

    ghost invariant = { λ s. IsSetup (data_of s) };
}

impl Setup {
    /// Makes the setup of an orchestra that breaks no rule, and of a plot that exceeds no limit. More than
    /// 4,096 resources are a limit error of resources, and otherwise more than 65,536 cells are one of words,
    /// both at line 0.
    pub fn new(alloc: Global, orchestra: TypedOrc, plot: Plot) -> Result<Setup, Or<LimitHit>>
        requires rated { IsWellRated (typed.orchestra orchestra) }
        requires distinct { IsDistinct eqb (all_numbers (typed.orchestra orchestra).instrs) }
        requires named { NamesWhatThereIs (typed.orchestra orchestra) }
        requires performable { IsPerformable orchestra.head plot }
        requires sizes { AreOfOneSize plot.events }
        requires asks { AskForFew (typed.orchestra orchestra) }
        ensures orchestra { IfOk result (λ s. s.orchestra ≡ orchestra) }
        ensures plot { IfOk result (λ s. s.plot ≡ plot) }
        ensures within { OnOk result (limit_passed (areas_in (typed.orchestra orchestra) plot.events) ≡ None) }
        ensures limit { (hit : LimitHit) → result ≡ Err (or.Fault hit)
            → limit_passed (areas_in (typed.orchestra orchestra) plot.events) ≡ Some hit }
    {
        let lowered = lower(alloc, &orchestra)?;
        let erased = ErasedOrchestra::of(&orchestra);
        let (head, spaces) = (orchestra.head, orchestra.spaces);
        // The statements are dropped before the tables are made.
        let globals = globals_of(orchestra);
        let events = plot.events.as_slice();
        let shared = shared_by(alloc, head.ksmps, &globals, spaces, &lowered, events)?;
        Ok(Setup {
            head,
            spaces,
            orchestra: erased,
            plot,
            tables: shared.tables,
            layout: shared.layout,
            lowered,
            zoned: shared.zoned,
        })
    }

    /// Returns the header of the orchestra.
    pub fn head(&self) -> &Head
        ensures { result.now ≡ self.now.orchestra.head }
    {
        &self.head
    }

    /// Returns the plot.
    pub fn plot(&self) -> &Plot
        ensures { result.now ≡ self.now.plot }
    {
        &self.plot
    }

    /// Returns the layout of the cells that notes share.
    pub fn layout(&self) -> &Layout
        ensures { result.now ≡ self.now.layout }
    {
        &self.layout
    }

    /// Returns the zones: which of these cells a note claims together.
    pub fn zones(&self) -> &Layout
        ensures { result.now ≡ self.now.zones }
    {
        &self.zoned.zones
    }
}

// Returns the variables and channels of an orchestra, whose statements are dropped.
fn globals_of(orchestra: TypedOrc) -> Globals
    ensures { result ≡ orchestra.globals }
{
    orchestra.globals
}

// What the notes of a piece share: its tables, the layout of its cells, and which of them the codes may
// touch.
#[derive(Drop)]
struct Shared {
    tables: Vec<PieceTable>,
    layout: Layout,
    zoned: Zoned,
}

// Returns what notes of these codes and events share, in addition to variables, channels and zak spaces.
fn shared_by(
    alloc: Global,
    ksmps: u32,
    globals: &Globals,
    spaces: Spaces,
    lowered: &Lowered,
    events: &[Event],
) -> Result<Shared, Or<LimitHit>>
    requires codes { (o : typed.Orchestra) × AreInstrumentsOf o lowered.now.instruments }
    requires acts { All (λ e. IsActInRange e.act) events.now }
    ensures tables { IfOk result (λ s. (o : typed.Orchestra) → AreInstrumentsOf o lowered.now.instruments
        → map table_of s.tables.items ≡ tables_in o events.now) }
    ensures layout { IfOk result (λ s. s.layout ≡ areas_of ksmps (typed.shared_names globals.now) spaces
        (live_in (map table_of s.tables.items))) }
    ensures within { IfOk result (λ s. limit_passed s.layout ≡ None) }
    ensures limit { (hit : LimitHit) → result ≡ Err (or.Fault hit) → (o : typed.Orchestra)
        → AreInstrumentsOf o lowered.now.instruments → limit_passed (areas_of ksmps (typed.shared_names globals.now)
        spaces (live_in (tables_in o events.now))) ≡ Some hit }
    ensures zones { IfOk result (λ s. AreZones s.layout s.zoned.zones) }
    ensures outside { IfOk result (λ s. IsFootOver s.layout s.zoned.zones lowered.now.zero.perf s.zoned.outside) }
    ensures feet { IfOk result (λ s. AllZip (λ (i : Numbered) (foot : Footprint).
        IsFootOver s.layout s.zoned.zones i.perf foot) lowered.now.instruments s.zoned.feet.items) }
{
    let tables = tables_of(alloc, lowered, events)?;
    let layout = layout_of(alloc, ksmps, globals, spaces, &tables)?;
    let instruments = lowered.instruments.as_slice();
    let zoned = find_zones(alloc, &layout, lowered.zero.perf(), instruments)?;
    Ok(Shared {
        tables,
        layout,
        zoned,
    })
}

// Returns the layout of a piece with `ksmps` frames in a control cycle, these variables and channels, zak
// spaces and tables.
fn layout_of(
    alloc: Global,
    ksmps: u32,
    globals: &Globals,
    spaces: Spaces,
    tables: &[PieceTable],
) -> Result<Layout, Or<LimitHit>>
    requires { AreApart (live_in (map table_of tables.now)) }
    ensures layout { IfOk result (λ l. l
        ≡ areas_of ksmps (typed.shared_names globals.now) spaces (live_in (map table_of tables.now))) }
    ensures within { OnOk result (limit_passed
        (areas_of ksmps (typed.shared_names globals.now) spaces (live_in (map table_of tables.now))) ≡ None) }
    ensures limit { (hit : LimitHit) → result ≡ Err (or.Fault hit) → limit_passed
        (areas_of ksmps (typed.shared_names globals.now) spaces (live_in (map table_of tables.now))) ≡ Some hit }
{
    let live = live_of(alloc, tables)?;
    layout(alloc, ksmps, globals, spaces, &live)
}

// Returns the live tables: those whose points are stored in cells.
fn live_of(alloc: Global, tables: &[PieceTable]) -> Result<Vec<LiveTable>, OutOfMemory>
    ensures { IfOk result (λ v. v.items ≡ live_in (map table_of tables.now)) }
{
    let mut live = Vec::new(alloc);
    for table in tables {
        if table.points.is_none() {
            live.push(LiveTable {
                number: table.number,
                size: table.size,
            })?;
        }
    }
    Ok(live)
}
