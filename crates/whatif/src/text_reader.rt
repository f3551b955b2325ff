//! A reader of a text that stands in memory.

ghost use Rattle.std.specs.Prelude.{◌≡◌};

use std::io;
use std::marker::Model;
use words::Read;

/// A reader of a text that stands in memory. It never fails.
#[derive(Drop)]
pub struct TextReader<'a> {
    left: &'a [u8],
}

impl<'a> Model for TextReader<'a> {
    ghost use Rattle.std.specs.Prelude.{ℕ, List};
    ghost use Rattle.std.specs.Coded.{coded_ℕ, coded_list};

    ghost Value = { List ℕ };

    ghost coded = { coded_list coded_ℕ };

    ghost view = { λ r. r.left.now };
}

impl<'a> TextReader<'a> {
    /// A reader of a text.
    pub fn new(text: &'a [u8]) -> TextReader<'a>
        ensures { result ≡ text.now }
    {
        TextReader { left: text }
    }
}

impl<'a> Read for TextReader<'a> {
    ghost use Rattle.std.specs.Prelude.{true};

    ghost told = { true };

    ghost left = { λ r. r };

    ghost failures = { λ r. 0 };

    fn read(&mut self, buf: &mut [u8]) -> io::Result<usize> {
        let count = buf.len().min(self.left.len());
        buf[..count].copy_from_slice(&self.left[..count]);
        self.left = &self.left[count..];
        Ok(count)
    }
}
