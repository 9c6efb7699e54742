ghost use Rattle.std.specs.Prelude.{◌≡◌, [], Some, None, drop};
ghost use Rattle.cs_edge.specs.Memory.{bytes_at};

use crate::fakes::lookup::{bytes_of, copy_front, place_in};
use crate::{Failed, Files, Shelf};

/// Files in memory whose calls never fail. The shelf tells the files and the bytes left of the file begun,
/// but no calls.
#[derive(Drop)]
pub struct SureShelf {
    files: Files,
    begun: Option<usize>,
    at: usize,
}

impl SureShelf {
    /// Returns a shelf of these files. It allocates nothing.
    pub fn new(files: Files) -> SureShelf
        ensures { ⟦<SureShelf as Shelf>⟧.tells result
            ≡ record { files = Some files; left = Some []; moves = None; faults = 0 } }
    {
        SureShelf {
            files,
            begun: None,
            at: 0,
        }
    }
}

impl Shelf for SureShelf {
    ghost tells = { λ s. record {
      files = Some s.files;
      left = Some (drop s.at (bytes_at s.begun s.files));
      moves = None;
      faults = 0;
    } };

    fn begin(&mut self, name: &str) -> Result<bool, Failed> {
        self.at = 0;
        self.begun = place_in(self.files.as_slice(), name);
        Ok(self.begun.is_some())
    }

    fn read(&mut self, buf: &mut [u8]) -> Result<usize, Failed> {
        let n = copy_front(bytes_of(self.files.as_slice(), self.begun), self.at, buf);
        self.at += n;
        Ok(n)
    }
}
