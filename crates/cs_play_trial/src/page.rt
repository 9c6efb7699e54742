// Bytes that are written one after another.
use std::alloc::Global;

const DIGITS: [u8; 16] = *b"0123456789abcdef";

/// What was written. It is incomplete if memory ran out or a file couldn't be read.
#[derive(Drop)]
pub struct Page {
    alloc: Global,
    bytes: Vec<u8>,
    whole: bool,
}

impl Page {
    /// Makes an empty page.
    pub fn new(alloc: Global) -> Page {
        Page {
            alloc,
            bytes: Vec::new(alloc),
            whole: true,
        }
    }

    /// Returns the bytes that were written.
    pub fn bytes(&self) -> &[u8] {
        &self.bytes
    }

    /// Returns whether the page is complete.
    pub fn is_whole(&self) -> bool {
        self.whole
    }

    /// Returns what is shown: the bytes, or the fact that they are incomplete.
    pub fn shown(&self) -> &[u8] {
        if self.whole {
            &self.bytes
        } else {
            b"memory or a file was refused\n"
        }
    }

    /// Records that the page is incomplete.
    pub fn spoil(&mut self) {
        self.whole = false;
    }

    /// Removes everything that was written.
    pub fn clear(&mut self) {
        self.bytes.clear();
    }

    /// Appends bytes.
    pub fn add(&mut self, bytes: &[u8]) {
        if self.bytes.extend_from_slice(bytes).is_err() {
            self.whole = false;
        }
    }

    /// Appends a byte.
    pub fn push(&mut self, byte: u8) {
        self.add(&[byte]);
    }

    /// Appends a number in decimal digits.
    pub fn add_number(&mut self, number: u64) {
        match format!(in self.alloc; "{number}") {
            Ok(digits) => self.add(digits.as_bytes()),
            Err(_) => self.whole = false,
        }
    }

    /// Appends a byte in two hexadecimal digits.
    pub fn add_digits(&mut self, byte: u8) {
        self.push(DIGITS[(byte / 16) as usize]);
        self.push(DIGITS[(byte % 16) as usize]);
    }

    /// Appends bytes as they are, but a line feed as a stroke, and an unprintable byte as an escape.
    pub fn add_shown(&mut self, bytes: &[u8]) {
        for byte in bytes {
            match *byte {
                b'\n' => self.add(b" / "),
                b' '..=b'_' | b'a'..=b'~' => self.push(*byte),
                byte => {
                    self.push(b'`');
                    self.add_digits(byte);
                }
            }
        }
    }
}
