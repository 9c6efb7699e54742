// The adapters over files of the system and standard output, and a mirror.
use cs_edge::{Failed, FileShelf, FileSink, MirrorTap, Shelf, Sink, TalkOut, Tap};
use std::alloc::Global;
use std::io;
use std::rt::Files;

/// The results of a write before any begin, of a begin, a write and an end.
#[derive(Clone, Copy, Debug)]
pub struct Written {
    pub early: Result<usize, Failed>,
    pub begun: Result<(), Failed>,
    pub written: Result<usize, Failed>,
    pub ended: Result<(), Failed>,
}

/// Writes four bytes to the file with this name.
pub fn text_written<R: Files>(rt: &R, alloc: Global, name: &str) -> Written {
    let mut sink = FileSink::new(rt, alloc);
    Written {
        early: sink.write(b"RIFF"),
        begun: sink.begin(name),
        written: sink.write(b"RIFF"),
        ended: sink.end(),
    }
}

/// The results of a begin and of three reads, and the bytes read.
#[derive(Clone, Copy, Debug)]
pub struct Read {
    pub begun: Result<bool, Failed>,
    pub reads: [Result<usize, Failed>; 3],
    pub bytes: [u8; 4],
}

/// Reads the file with this name: three bytes, and then up to four, twice.
pub fn text_read<R: Files>(rt: &R, name: &str) -> Read {
    let mut shelf = FileShelf::new(rt);
    let begun = shelf.begin(name);
    let (mut front, mut last, mut none) = ([0u8; 3], [0u8; 4], [0u8; 4]);
    let reads = [
        shelf.read(&mut front),
        shelf.read(&mut last),
        shelf.read(&mut none),
    ];
    Read {
        begun,
        reads,
        bytes: [front[0], front[1], front[2], last[0]],
    }
}

/// Writes a line without a line feed to standard output, in two pieces. Returns the results of a begin, of the pieces
/// and of an end.
pub fn spoken<R: Print>(rt: &R, alloc: Global) -> [Result<usize, Failed>; 4] {
    let mut talk = TalkOut::new(io::writer(rt), alloc);
    [
        talk.begin("").map(|()| 0),
        talk.write(b"one piece"),
        talk.write(b", another"),
        talk.end().map(|()| 0),
    ]
}

/// Passes three values to a mirror with room for two. Returns how many it counted, and how many it kept.
pub fn mirrored(alloc: Global) -> Option<(u64, usize)> {
    match MirrorTap::new(alloc, 2) {
        Ok(mut mirror) => {
            mirror.take(&[1, 2, 3]);
            Some((mirror.count(), mirror.kept().len()))
        }
        Err(_) => None,
    }
}
