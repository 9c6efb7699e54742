// The numbers of places of the zak spaces.
/// The number of places of each zak space; both are 0 if the orchestra has no `zakinit`.
#[derive(Clone, Copy)]
pub struct Spaces {
    /// Number of k-rate places, from 0 to 1,001.
    pub control: u32,
    /// Number of a-rate places, from 0 to 1,001.
    pub audio: u32,
}
