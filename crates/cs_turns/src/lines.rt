// The lines that report turns.
ghost use Rattle.std.specs.Prelude.{◌≡◌, ◌++◌, codes, flat_map, decimal, nat_lt, IfOk, OnErr, OnOk};
ghost use Rattle.cs_turns.specs.Turns.{line_of, turn_line};

use cs_base::OutOfMemory;
use cs_graph::Graph;
use itoa::Buffer;
use std::alloc::Global;

// Cycles from this one on have no line.
const LINES_END: u32 = 1_000;

/// Whether a cycle has a line: the first 1,000 cycles have one.
pub fn has_line(cycle: u32) -> bool
    ensures { result ≡ nat_lt cycle 1000 }
{
    cycle < LINES_END
}

/// Appends the line of a cycle whose notes have this graph, or nothing from cycle 1,000 on. If memory runs
/// out nothing is appended.
pub fn add_turns(
    alloc: Global,
    turns: &mut Vec<u8>,
    cycle: u32,
    graph: &Graph,
) -> Result<(), OutOfMemory>
    ensures added { OnOk result (turns.new.items ≡ turns.old.items ++ line_of cycle graph.now.levels) }
    ensures failed { OnErr result (turns.new.items ≡ turns.old.items) }
{
    if !has_line(cycle) {
        return Ok(());
    }
    let line = turn_line(alloc, cycle, graph)?;
    turns.extend_from_slice(&line)?;
    Ok(())
}

// Returns the line of a cycle.
fn turn_line(alloc: Global, cycle: u32, graph: &Graph) -> Result<Vec<u8>, OutOfMemory>
    ensures { IfOk result (λ line. line.items ≡ turn_line cycle graph.now.levels) }
{
    let mut line = Vec::from_slice(alloc, b"cycle ")?;
    line.extend_from_slice(Buffer::new().format(cycle).as_bytes())?;
    line.extend_from_slice(b" turns")?;
    add_levels(&mut line, graph)?;
    line.push(b'\n')?;
    Ok(line)
}

// Appends each level after a blank.
fn add_levels(line: &mut Vec<u8>, graph: &Graph) -> Result<(), OutOfMemory>
    ensures { OnOk result (line.new.items ≡ line.old.items ++ flat_map
        (λ turn. codes " " ++ decimal turn) graph.now.levels) }
{
    for note in 0..graph.len() {
        add_level(line, graph.level(note))?;
    }
    Ok(())
}

fn add_level(line: &mut Vec<u8>, level: u32) -> Result<(), OutOfMemory>
    ensures { OnOk result (line.new.items ≡ line.old.items ++ (codes " " ++ decimal level)) }
{
    line.push(b' ')?;
    line.extend_from_slice(Buffer::new().format(level).as_bytes())?;
    Ok(())
}
