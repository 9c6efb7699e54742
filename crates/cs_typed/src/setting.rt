// The context of a statement.

/// The context of a statement: whether it is inside an instrument, and the number of channels of the piece.
#[derive(Clone, Copy)]
pub struct Setting {
    pub inside: bool,
    pub channels: u32,
}
