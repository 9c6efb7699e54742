// The statements of a score, the result of reading it.
use crate::NoteValues;
use cs_base::{Items, Num, Nums};

/// A point of a tempo statement: the tempo from this beat on.
#[derive(Clone, Copy)]
pub struct TempoPoint {
    /// Millionths of a beat from the start of the section, from 0 to 9,999,999,999,999.
    pub beat: u64,
    /// Millionths of a beat per minute, from 1,000,000 to 60,000,000,000.
    pub tempo: u64,
}

/// The points of a tempo statement, in order.
pub type TempoPoints = Items<TempoPoint>;

/// The content of a statement. Each `at` is a beat in millionths from the start of the section, from 0 to
/// 9,999,999,999,999. In a note, a held note or a stop, `at` includes the base of the section and the mark in
/// p2; in a table or an extension it includes neither.
#[derive(Drop)]
pub enum ScoreWhat {
    /// A note of instrument `instr`, 1 to 32,767, from beat `at` on, `length` millionths of a beat long, at
    /// least 0. Its end, `at` plus `length`, is at most 9,999,999,999,999 too. `more` holds its fields from
    /// p4 on, at most 97.
    Note {
        instr: u32,
        at: u64,
        length: u64,
        more: NoteValues,
    },
    /// A note that is held until a stop ends it. `given` is its p3, which is negative in the text and is a
    /// number, not a time.
    Hold {
        instr: u32,
        at: u64,
        given: Num,
        more: NoteValues,
    },
    /// The end of a held note of instrument `instr`.
    Stop {
        instr: u32,
        at: u64,
    },
    /// Table `number`, 1 to 65,535, made at beat `at`.
    Table {
        number: u32,
        at: u64,
        size: i64,
        gen_: i64,
        args: Nums,
    },
    /// An extension of the section at least up to beat `at`, silent after its notes.
    Extend {
        at: u64,
    },
    /// The tempo of the section.
    Tempo {
        points: TempoPoints,
    },
    /// The end of the section.
    Section,
}

/// A statement, and the line of its letter. Lines count from 1.
#[derive(Drop)]
pub struct ScoreStmt {
    pub line: u32,
    pub what: ScoreWhat,
}

/// The statements of a score, in order.
pub type ScoreStmts = Items<ScoreStmt>;
