// The edge: files and a text writer as implementations of the traits. Each one counts its faults, with every
// error as one fault, and tells nothing about the contents of a file or a terminal. The clauses state what is
// done to an open file and to a writer; that `begin` opens or creates the file with its name is trusted.
ghost use Rattle.std.specs.Prelude.{◌≡◌, ◌<◌, ◌≤◌, [], length, None, IfOk, IfSome, IsSome, OnOk, true};
ghost use Rattle.std.specs.Io.Buffered.{writer_buffer, writer_contents};
ghost use Rattle.std.specs.Io.KnownBytes.{Appends, Keeps, ReadConsumes, WriteAppends, append_known};
ghost use Rattle.cs_edge.specs.{Open.known_of, Open.left_of, Told.HasCause, Told.Rose};

use crate::line_buffer::LineBuffer;
use crate::{Failed, Shelf, Sink};
use std::alloc::Global;
use std::fs;
use std::io::{BufWriter, Read, Write};
use std::rt::Files;

// Capacity in bytes of the buffer in front of a sound file.
const FILE_ROOM: usize = 65536;

/// Files of the operating system, for reading. Failing to open a file is a fault. A file that was read to its end
/// is closed. That `begin` opens the file with its name is trusted.
#[derive(Drop)]
pub struct FileShelf<'a, R: Files> {
    rt: &'a R,
    file: Option<R::File>,
    faults: u64,
}

impl<'a, R: Files> FileShelf<'a, R> {
    /// Returns a shelf with no file begun.
    pub fn new(rt: &'a R) -> FileShelf<'a, R> {
        FileShelf {
            rt,
            file: None,
            faults: 0,
        }
    }
}

impl<'a, R: Files> Shelf for FileShelf<'a, R> {
    ghost tells = { λ s. record { files = None; left = None; moves = None; faults = s.faults } };

    fn begin(&mut self, name: &str) -> Result<bool, Failed>
        ensures open { IfOk result (λ found. (found ≡ true) × IsSome self.new.file) }
        ensures cause { HasCause self.old.faults self.new.faults result }
    {
        self.file = None;
        match fs::open(self.rt, name) {
            Ok(file) => {
                self.file = Some(file);
                Ok(true)
            }
            Err(_) => Err(failed(&mut self.faults)),
        }
    }

    fn read(&mut self, buf: &mut [u8]) -> Result<usize, Failed>
        requires { 0 < length buf.old }
        ensures count { IfOk result (λ n. n ≤ length buf.old) }
        ensures read { ReadConsumes (left_of R.File.remaining self.old.file)
            (left_of R.File.remaining self.new.file) result buf.new }
        ensures cause { HasCause self.old.faults self.new.faults result }
    {
        match &mut self.file {
            Some(file) => match file.read(buf) {
                Ok(0) => {
                    self.file = None;
                    Ok(0)
                }
                Ok(count) => Ok(count),
                Err(_) => Err(failed(&mut self.faults)),
            },
            None => Ok(0),
        }
    }
}

/// A file of the operating system, for writing. The bytes go through a buffer, which is written when it is
/// full, at the end, and when the sink is dropped. A full disk may therefore be reported by a later call or
/// by `end`; the file always has a prefix of the bytes taken. A device that accepts no bytes is a fault, and
/// so is running out of memory for the buffer in `begin`. That `begin` creates the file with its name is
/// trusted.
#[derive(Drop)]
pub struct FileSink<'a, R: Files> {
    rt: &'a R,
    alloc: Global,
    file: Option<BufWriter<R::File>>,
    faults: u64,
}

impl<'a, R: Files> FileSink<'a, R> {
    /// Returns a sink with no file begun. It allocates nothing yet, and keeps `alloc` for the buffer.
    pub fn new(rt: &'a R, alloc: Global) -> FileSink<'a, R> {
        FileSink {
            rt,
            alloc,
            file: None,
            faults: 0,
        }
    }
}

impl<'a, R: Files> Sink for FileSink<'a, R> {
    ghost tells = { λ s. record { held = None; moves = None; faults = s.faults } };

    fn begin(&mut self, name: &str) -> Result<(), Failed>
        ensures open { OnOk result (IsSome self.new.file) }
        ensures cause { HasCause self.old.faults self.new.faults result }
    {
        self.file = None;
        if let Ok(file) = fs::create(self.rt, name) {
            if let Ok(file) = BufWriter::with_capacity(self.alloc, FILE_ROOM, file) {
                self.file = Some(file);
                return Ok(());
            }
        }
        Err(failed(&mut self.faults))
    }

    fn write(&mut self, piece: &[u8]) -> Result<usize, Failed>
        requires { 0 < length piece.now }
        ensures count { IfOk result (λ n. (0 < n) × (n ≤ length piece.now)) }
        ensures taken { WriteAppends (known_of (writer_contents R.File.contents) self.old.file)
            (known_of (writer_contents R.File.contents) self.new.file) result piece.now }
        ensures cause { HasCause self.old.faults self.new.faults result }
    {
        match &mut self.file {
            Some(file) => match file.write(piece) {
                Ok(n) if n > 0 => Ok(n),
                _ => Err(failed(&mut self.faults)),
            },
            None => Err(failed(&mut self.faults)),
        }
    }

    // The file stays open until the next `begin`, or until the sink is dropped.
    fn end(&mut self) -> Result<(), Failed>
        ensures kept { Keeps (known_of (writer_contents R.File.contents) self.old.file)
            (known_of (writer_contents R.File.contents) self.new.file) }
        ensures written { OnOk result (IfSome self.new.file (λ file. writer_buffer file ≡ [])) }
        ensures cause { HasCause self.old.faults self.new.faults result }
    {
        match &mut self.file {
            Some(file) => match file.flush() {
                Ok(()) => Ok(()),
                Err(_) => Err(failed(&mut self.faults)),
            },
            None => Err(failed(&mut self.faults)),
        }
    }
}

/// Text that is written to standard output, or to any other writer. `begin` does nothing. A line is written
/// in one piece, by the call that takes its line feed; `end` writes a last line that has no line feed.
#[derive(Drop)]
pub struct TalkOut<W> {
    out: W,
    line: LineBuffer,
    faults: u64,
}

impl<W: Write> TalkOut<W> {
    /// Returns a text writer over `out`. It allocates nothing yet, and keeps `alloc` for partial lines.
    pub fn new(out: W, alloc: Global) -> TalkOut<W> {
        TalkOut {
            out,
            line: LineBuffer::new(alloc),
            faults: 0,
        }
    }
}

impl<W: Write> Sink for TalkOut<W> {
    ghost tells = { λ s. record { held = None; moves = None; faults = s.faults } };

    fn begin(&mut self, _name: &str) -> Result<(), Failed> {
        Ok(())
    }

    fn write(&mut self, piece: &[u8]) -> Result<usize, Failed>
        requires { 0 < length piece.now }
        ensures count { IfOk result (λ n. (0 < n) × (n ≤ length piece.now)) }
        ensures whole { IfOk result (λ n. n ≡ length piece.now) }
        // The writer's bytes followed by the buffer have grown by the piece.
        ensures taken { OnOk result (Appends (append_known (W.contents self.old.out) self.old.line)
            (append_known (W.contents self.new.out) self.new.line) piece.now) }
        ensures cause { HasCause self.old.faults self.new.faults result }
    {
        match self.line.put(&mut self.out, piece) {
            Ok(()) => Ok(piece.len()),
            Err(_) => Err(failed(&mut self.faults)),
        }
    }

    fn end(&mut self) -> Result<(), Failed>
        ensures written { OnOk result (Appends (W.contents self.old.out) (W.contents self.new.out) self.old.line) }
        ensures none { self.new.line ≡ [] }
        ensures cause { HasCause self.old.faults self.new.faults result }
    {
        match self.line.flush(&mut self.out) {
            Ok(()) => Ok(()),
            Err(_) => Err(failed(&mut self.faults)),
        }
    }
}

// Counts a fault.
fn failed(faults: &mut u64) -> Failed
    ensures rose { Rose faults.old faults.new }
    ensures later { faults.old ≤ faults.new }
{
    *faults = faults.saturating_add(1);
    Failed
}
