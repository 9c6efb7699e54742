// The contents of a sink in memory, as long as memory suffices to store them.
ghost use Rattle.std.specs.Prelude.{◌≡◌, [], Some, None};
ghost use Rattle.cs_edge.specs.{Told.Follows, Memory.told_taken};
ghost use Rattle.cs_edge.specs.Moves.{TakenMore, IsEnded, no_file, open_file};

use crate::fakes::kept::text_of;
use cs_base::Text;
use std::alloc::Global;

/// The name begun, the bytes taken since, whether the file was ended since, and whether all of this is
/// stored.
#[derive(Drop)]
pub struct Taken {
    pub alloc: Global,
    pub name: Option<Text>,
    pub bytes: Vec<u8>,
    pub ended: bool,
    pub told: bool,
}

impl Taken {
    /// Returns an empty state: no name and no bytes. It allocates nothing.
    pub fn new(alloc: Global) -> Taken
        ensures { told_taken result ≡ Some no_file }
    {
        Taken {
            alloc,
            name: None,
            bytes: Vec::new(alloc),
            ended: false,
            told: true,
        }
    }

    /// Drops the name and the bytes.
    pub fn clear(&mut self)
        ensures { Follows (told_taken self.old) (told_taken self.new) (λ _ now. now ≡ no_file) }
    {
        self.name = None;
        self.bytes.clear();
        self.ended = false;
    }

    /// Begins a file with this name and no bytes. If memory runs out, nothing is told from then on.
    pub fn begin(&mut self, name: &str)
        ensures { Follows (told_taken self.old) (told_taken self.new) (λ _ now. now ≡ open_file name.now []) }
    {
        self.clear();
        match text_of(self.alloc, name) {
            Ok(name) => self.name = Some(name),
            Err(_) => self.told = false,
        }
    }

    /// Appends these bytes. If memory runs out, nothing is told from then on.
    pub fn add(&mut self, piece: &[u8])
        ensures { Follows (told_taken self.old) (told_taken self.new) (TakenMore piece.now) }
    {
        if self.told {
            self.told = self.bytes.extend_from_slice(piece).is_ok();
        }
    }

    /// Marks the file as ended.
    pub fn end(&mut self)
        ensures { Follows (told_taken self.old) (told_taken self.new) IsEnded }
    {
        self.ended = true;
    }
}
