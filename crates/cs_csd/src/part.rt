// The parts of a file with both texts.

/// A text within a file: the offset of its first byte, the offset after its last byte, and the number of its
/// first line, counted from 1.
#[derive(Clone, Copy)]
pub struct Part {
    pub from: u32,
    pub to: u32,
    pub line: u32,
}

/// The orchestra and the score of a file. A missing score is the empty text at the start of the file.
#[derive(Clone, Copy)]
pub struct Parts {
    pub orc: Part,
    pub sco: Part,
}
