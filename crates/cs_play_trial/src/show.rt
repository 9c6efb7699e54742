// The line of a case.
use crate::desk::Once;
use crate::gate::{CaseGate, Task};
use crate::made::CaseStage;
use crate::page::Page;
use crate::play::CaseRun;
use crate::wave::add_wave;
use cs_edge::{MemShelf, Move};

/// Writes a case's line: its name, the status, the line on `talk` (the report if it is asked for), and the
/// sound file if one was opened.
pub fn add_line(
    out: &mut Page,
    case: CaseRun<'_>,
    status: u8,
    shelf: &MemShelf,
    stage: &CaseStage,
) {
    let once = &case.desk.once;
    out.add_shown(case.name.as_bytes());
    out.add(b": ");
    out.add_number(u64::from(status));
    if status != 0 || once.report {
        add_talk(out, stage.talk.taken());
    }
    add_seen(out, once, stage);
    if once.calls {
        add_calls(out, b"; shelf", shelf.moves());
        add_calls(out, b"; wav", stage.wav.moves());
        add_calls(out, b"; talk", stage.talk.moves());
    }
    out.push(b'\n');
    if !stage.told.is_whole() {
        out.spoil();
    }
}

// Appends the sound file if one was opened, and what the gate and the meters show.
fn add_seen(out: &mut Page, once: &Once, stage: &CaseStage) {
    if !stage.wav.moves().is_empty() {
        add_sound(out, stage.wav.taken(), once.hex);
    }
    if let Some(task) = once.task {
        add_gate(out, task, &stage.gate);
    }
    if once.mirror > 0 {
        // A last line feed isn't shown.
        let told = stage.told.bytes();
        out.add(b"; ");
        out.add_shown(told.strip_suffix(b"\n").unwrap_or(told));
    }
}

// Appends what the gate of a case shows.
fn add_gate(out: &mut Page, task: Task, gate: &CaseGate) {
    match task {
        Task::Meeting(_) => {
            out.add(b"; met in ");
            out.add_number(gate.met());
            out.add(b" cycles, ");
            out.add_number(gate.calls());
            out.add(b" calls");
        }
        Task::Summing(_) => {
            out.add(b"; squares of the calls' numbers: ");
            out.add_number(gate.summed());
        }
        Task::Counting(_) if gate.is_in_order() => {
            out.add(b"; calls of the gate, in order: ");
            out.add_number(gate.calls());
        }
        Task::Counting(_) => out.add(b"; calls of the gate out of order"),
    }
}

// Appends what `talk` has received: without a last line feed, and marked as cut if it has none.
fn add_talk(out: &mut Page, talk: &[u8]) {
    if talk.is_empty() {
        return;
    }
    out.push(b' ');
    match talk.strip_suffix(b"\n") {
        Some(line) => out.add_shown(line),
        None => {
            out.add_shown(talk);
            out.add(b" (cut)");
        }
    }
}

fn add_sound(out: &mut Page, wav: &[u8], hex: bool) {
    if !hex {
        return add_wave(out, wav);
    }
    out.add(b", ");
    for byte in wav {
        out.add_digits(*byte);
    }
}

// Equal calls, one after another.
#[derive(Clone, Copy)]
struct Alike {
    kind: &'static str,
    times: u64,
}

// Appends the calls made on an object, equal ones together; nothing if there are none.
fn add_calls(out: &mut Page, object: &[u8], moves: &[Move]) {
    if moves.is_empty() {
        return;
    }
    out.add(object);
    let mut alike = Alike { kind: "", times: 0 };
    for made in moves {
        alike = add_call(out, alike, made);
    }
    add_alike(out, alike);
}

// Appends the calls before `made` if it is a different one, and returns the calls to go on with. A begin is
// written immediately, with its name.
fn add_call(out: &mut Page, before: Alike, made: &Move) -> Alike {
    let kind = match made {
        Move::Read => " read",
        Move::Write => " write",
        Move::End => " end",
        Move::Begin(name) => {
            add_alike(out, before);
            out.add(b" begin ");
            out.add_shown(name.as_str().as_bytes());
            return Alike { kind: "", times: 0 };
        }
    };
    if kind == before.kind {
        let times = before.times.saturating_add(1);
        return Alike { kind, times };
    }
    add_alike(out, before);
    Alike { kind, times: 1 }
}

fn add_alike(out: &mut Page, alike: Alike) {
    out.add(alike.kind.as_bytes());
    if alike.times > 1 {
        out.add(b" x ");
        out.add_number(alike.times);
    }
}
