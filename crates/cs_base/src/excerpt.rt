// A text within a file.
ghost use Rattle.std.specs.Prelude.{◌≡◌, ◌≤◌, ◌+◌};
ghost use Rattle.cs_base.specs.{Limits.most_csd_bytes, Lines.excerpt, Lines.whole_file};

use std::marker::Model;

/// A text within a file, with the line of the file on which it begins: from 1 to 5,242,881, since a file has
/// at most 5,242,880 bytes.
#[derive(Drop)]
pub struct Excerpt<'a> {
    first_line: u32,
    bytes: &'a [u8],
}

impl<'a> Model for Excerpt<'a> {
    ghost use Rattle.cs_base.specs.{Lines.Excerpt, Lines.excerpt, Limits.most_csd_bytes};
    ghost use Rattle.std.specs.Prelude.{◌≤◌, ◌+◌};

    ghost Value = { Excerpt };

    ghost view = { λ e. excerpt e.first_line e.bytes.now };

    ghost invariant = { λ e. e.first_line ≤ most_csd_bytes + 1 };
}

impl<'a> Excerpt<'a> {
    /// Returns the text `bytes`, which begins on line `first_line` of its file.
    pub fn new(first_line: u32, bytes: &'a [u8]) -> Excerpt<'a>
        requires { first_line ≤ most_csd_bytes + 1 }
        ensures { result ≡ excerpt first_line bytes.now }
    {
        Excerpt { first_line, bytes }
    }

    /// Returns a text that is an entire file, so that it begins on line 1.
    pub fn whole_file(bytes: &'a [u8]) -> Excerpt<'a>
        ensures { result ≡ whole_file bytes.now }
    {
        Excerpt::new(1, bytes)
    }

    /// Returns the line of the file on which the text begins.
    pub fn first_line(&self) -> u32
        ensures value { result ≡ self.now.first_line }
        ensures small { result ≤ most_csd_bytes + 1 }
    {
        self.first_line
    }

    /// Returns the bytes of the text.
    pub fn bytes(&self) -> &'a [u8]
        ensures { result.now ≡ self.now.bytes }
    {
        self.bytes
    }
}
