use cs_base::{Bytes, Items, Text};

/// A file in memory: its name and its bytes.
#[derive(Drop)]
pub struct NamedBytes {
    pub name: Text,
    pub bytes: Bytes,
}

/// Files in memory; if two have the same name, the first one is used.
pub type Files = Items<NamedBytes>;

/// The numbers of the calls that are to fail, counted from 1.
pub type Calls = Items<u64>;
