//! A line of commands, as far as it is kept.

ghost use Rattle.std.specs.Prelude.{◌≡◌, List, ℕ, [], ◌∷◌, ◌++◌, ◌≤◌, Some, IfSome, length};
ghost use Rattle.std.specs.Option.{option_map};
ghost use Rattle.commands.specs.Lines.{kept_line};

use arrayvec::ArrayVec;
use std::marker::Model;

/// The most bytes of a line of commands, without its line feed.
pub const COMMAND_LENGTH: usize = 80;

/// A line of commands: its bytes, or that it is too long.
#[derive(Drop)]
pub struct CommandLine {
    bytes: ArrayVec<u8, COMMAND_LENGTH>,
    long: bool,
}

impl Model for CommandLine {
    ghost use Rattle.std.specs.Prelude.{Option, Some, None, List, ℕ, if◌then◌else◌};

    ghost Value = { Option (List ℕ) };

    ghost view = { λ l. if l.long then None else Some l.bytes.items };
}

impl CommandLine {
    /// The line of these bytes.
    pub fn of(text: &[u8]) -> CommandLine
        ensures { result ≡ kept_line text.now }
    {
        let mut line = CommandLine::empty();
        for byte in text {
            line.push(*byte);
        }
        line
    }

    /// A line without a byte.
    pub fn empty() -> CommandLine
        ensures { result ≡ Some [] }
    {
        CommandLine {
            bytes: ArrayVec::new(),
            long: false,
        }
    }

    /// Its bytes, where it isn't too long.
    pub fn text(&self) -> Option<&[u8]>
        ensures text { option_map (λ text. text.now) result ≡ self.now }
        ensures short { IfSome result (λ text. length text.now ≤ COMMAND_LENGTH) }
    {
        if self.long {
            None
        } else {
            Some(self.bytes.as_slice())
        }
    }

    // Takes all bytes away.
    pub(crate) fn clear(&mut self)
        ensures { self.new ≡ Some [] }
    {
        self.bytes.clear();
        self.long = false;
    }

    // Adds a byte at the end.
    pub(crate) fn push(&mut self, byte: u8)
        ensures { (line : List ℕ) → self.old ≡ kept_line line → self.new ≡ kept_line (line ++ byte ∷ []) }
    {
        if self.bytes.is_full() {
            self.long = true;
        } else {
            self.bytes.push(byte);
        }
    }
}
