use cs_base::Text;

/// A call of a shelf or a sink failed; the object's fault count rose.
#[derive(Clone, Copy, Debug, PartialEq, Eq)]
pub struct Failed;

/// A call that was made on a shelf or a sink, whether or not it failed.
#[derive(Drop)]
pub enum Move {
    /// A `begin` with this name.
    Begin(Text),
    Read,
    Write,
    End,
}
