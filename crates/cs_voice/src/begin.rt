// Units that a note starts as it begins.
ghost use Rattle.std.specs.Prelude.{◌≡◌, ◌+◌, ◌<◌, ◌≤◌, true, List, length, IfOk, OnOk, Some, None};
ghost use Rattle.cs_base.specs.Limits.{most_delay_samples};
ghost use Rattle.cs_base.specs.declared.resource.Res.TheVariants as res;
ghost use Rattle.cs_cells.specs.declared.footprint.Area.{Area};
ghost use Rattle.cs_ir.specs.declared.register.Counts.{Counts};
ghost use Rattle.cs_meaning.specs.Pieces.{Piece, Table, find_table, is_delay, table_number};
ghost use Rattle.cs_voice_meaning.specs.{Placing.HasArea, Placing.area_of, Follows.Kinds};
ghost use Rattle.cs_signal.specs.Pace.{pace_of};
ghost use Rattle.cs_voice.specs.Starting.{HasUnit, Starts, player_alone, player_on};
ghost use Rattle.cs_voice.specs.Tables.{CanAllBePlayed, CanBePlayed, table_at, tables_of};
ghost use Rattle.cs_voice.specs.inner.Begun.{IsBegunOn, Seeks, samples_with};
ghost use Rattle.cs_typed.specs.TypedTree.{header_of_head};
ghost use Rattle.cs_machine.specs.States.{IsStateIn};
ghost use Rattle.cs_ugen.specs.Units.{IsUnitOpcode, unit_start};
ghost use Rattle.cs_words.specs.Catalogue.{takes_table};

use crate::PieceTable;
use crate::tables::{Finds, find_made, table_number};
use cs_base::{Head, MOST_DELAY_SAMPLES, Num, OutOfMemory, Rate, Res};
use cs_cells::Layout;
use cs_machine::{NoteSetting, Player, State, area_in};
use cs_signal::{argument, delay_samples};
use cs_ugen::Unit;
use cs_words::{Opcode, signature_of};
use std::alloc::Global;

/// The reason why a note doesn't start.
#[derive(Clone, Copy)]
pub(crate) enum StartRefusal {
    /// A unit needs a table that hasn't been made; the table's number.
    NoTable(i64),
    /// The delays need this number of samples in total.
    DelayTooLong(u64),
}

/// The unit to start: its opcode, its rate and its number.
#[derive(Clone, Copy)]
pub(crate) struct UnitStart {
    pub opcode: Opcode,
    pub rate: Rate,
    pub unit: usize,
}

/// Starts a unit from its settled values. The table that it needs is looked for first.
pub(crate) fn begin<'p>(
    alloc: Global,
    state: &mut State<'p>,
    finds: &Finds<'_, 'p>,
    made: &[bool],
    start: UnitStart,
    settled: &[Num],
) -> Result<Option<StartRefusal>, OutOfMemory>
    requires unit { start.unit < length state.old.players.items }
    requires opcode { IsUnitOpcode start.opcode }
    requires delays { state.old.delays ≤ most_delay_samples }
    requires made { length made.now ≡ length finds.now.tables.now }
    requires tables { CanAllBePlayed finds.now.at.layout.now (tables_of finds.now.tables.now made.now) }
    ensures { IfOk result (λ refused. (piece : Piece) (kinds : Kinds) (counts : Counts)
        → piece.head ≡ header_of_head finds.now.at.head.now → piece.tables ≡ tables_of finds.now.tables.now made.now
        → kinds start.unit ≡ (start.opcode, start.rate) → IsStateIn finds.now.at.layout.now piece kinds counts state.old
        → Starts finds.now.at.layout.now piece kinds counts start.opcode start.rate start.unit settled.now state.old
        state.new refused) }
{
    if signature_of(start.opcode).takes_table() {
        let number = table_number(settled);
        let Some(table) = find_made(finds.tables, made, number) else {
            return Ok(Some(StartRefusal::NoTable(number)));
        };
        begin_on_table(alloc, state, &finds.at, table, start, settled)?;
        return Ok(None);
    }
    let samples = samples_with(state.delays, start.opcode, finds.at.head, settled);
    if samples > MOST_DELAY_SAMPLES as u64 {
        return Ok(Some(StartRefusal::DelayTooLong(samples)));
    }
    begin_alone(
        alloc,
        state,
        finds.at.head,
        start,
        settled,
        samples as usize,
    )?;
    Ok(None)
}

/// Looks for the table that a store writes; returns None if it has been made.
pub(crate) fn seek(tables: &[PieceTable], made: &[bool], settled: &[Num]) -> Option<StartRefusal>
    requires { length made.now ≡ length tables.now }
    ensures { Seeks (tables_of tables.now made.now) (table_number settled.now) result }
{
    let number = table_number(settled);
    match find_made(tables, made, number) {
        Some(_) => None,
        None => Some(StartRefusal::NoTable(number)),
    }
}

fn is_delay(opcode: Opcode) -> bool
    ensures { result ≡ is_delay opcode }
{
    matches!(opcode, Opcode::Delay)
}

// Starts a unit on a table that has been made. The result is the same in any list of tables that contains
// this one.
fn begin_on_table<'p>(
    alloc: Global,
    state: &mut State<'p>,
    at: &NoteSetting<'_>,
    table: &'p PieceTable,
    start: UnitStart,
    settled: &[Num],
) -> Result<(), OutOfMemory>
    requires unit { start.unit < length state.old.players.items }
    requires opcode { IsUnitOpcode start.opcode }
    requires table { CanBePlayed at.now.layout.now (table_at table.now true) }
    ensures { OnOk result ((tables : List Table)
        → find_table tables (table_number settled.now) ≡ Some (table_at table.now true)
        → IsBegunOn at.now.layout.now tables (table_number settled.now)
        (unit_start start.opcode start.rate (pace_of (header_of_head at.now.head.now)) settled.now) start.unit
        state.old state.new) }
{
    let number = table_number(settled);
    let unit = Unit::start(alloc, start.opcode, start.rate, at.head, settled)?;
    let player = on_table(at.layout, table, number, unit);
    put(state, start.unit, player);
    Ok(())
}

// Returns the number of samples in all delays after the start of a unit.
fn samples_with(delays: usize, opcode: Opcode, head: &Head, settled: &[Num]) -> u64
    requires { delays ≤ most_delay_samples }
    ensures { result ≡ samples_with opcode (pace_of (header_of_head head.now)) settled.now delays }
{
    if is_delay(opcode) {
        delays as u64 + delay_samples(argument(settled, 0), head)
    } else {
        delays as u64
    }
}

// Starts a unit without a table, after which the delays have `samples` samples.
fn begin_alone(
    alloc: Global,
    state: &mut State<'_>,
    head: &Head,
    start: UnitStart,
    settled: &[Num],
    samples: usize,
) -> Result<(), OutOfMemory>
    requires unit { start.unit < length state.old.players.items }
    requires opcode { IsUnitOpcode start.opcode }
    ensures { OnOk result (HasUnit state.old start.unit
        (player_alone (table_number settled.now)
        (unit_start start.opcode start.rate (pace_of (header_of_head head.now)) settled.now))
        samples state.new) }
{
    let unit = Unit::start(alloc, start.opcode, start.rate, head, settled)?;
    let player = Player::new(table_number(settled), unit);
    state.delays = samples;
    put(state, start.unit, player);
    Ok(())
}

// Returns the player of a unit on a table: with the points of a frozen one, or the area of a live one.
fn on_table<'p>(layout: &Layout, table: &'p PieceTable, number: i64, unit: Unit) -> Player<'p>
    requires { CanBePlayed layout.now (table_at table.now true) }
    ensures value { result ≡ player_on layout.now (table_at table.now true) number unit }
    ensures small { (area : Area) → result.area ≡ Some area → area.first + area.length ≤ 65536 }
{
    match &table.points {
        Some(points) => Player::on_frozen(number, unit, points),
        None => on_live(layout, table.number, number, unit),
    }
}

fn on_live<'p>(layout: &Layout, table: usize, number: i64, unit: Unit) -> Player<'p>
    requires { HasArea layout.now (res.Table table) }
    ensures value { result ≡ record {
      table = number;
      state = unit;
      points = None;
      area = area_of layout.now
          (res.Table table);
    } }
    ensures small { (area : Area) → result.area ≡ Some area → area.first + area.length ≤ 65536 }
{
    let area = area_in(layout, Res::Table(table));
    Player::on_live(number, unit, area)
}

// Stores a unit's player at the unit's index.
fn put<'p>(state: &mut State<'p>, unit: usize, player: Player<'p>)
    requires { unit < length state.old.players.items }
    ensures { HasUnit state.old unit player.entry state.old.delays state.new }
{
    state.players[unit] = Some(player);
}
