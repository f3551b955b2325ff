//! What a line of text may hold.

ghost use Rattle.std.specs.Prelude.{◌≡◌};
ghost use Rattle.std.specs.List.{list_all};
ghost use Rattle.agc_text.specs.Bytes.{is_text_byte};

/// The most bytes of a line, without its line feed.
pub const LINE_LENGTH: usize = 120;

/// Whether a line may hold each of its bytes: a space, a character that prints, or a tab.
pub fn is_text(line: &[u8]) -> bool
    ensures { result ≡ list_all is_text_byte line.now }
{
    // No byte ends the loop: so sixteen are tested at a time.
    let mut all = true;
    for byte in line {
        all &= is_text_byte(*byte);
    }
    all
}

// Whether a line may hold a byte.
fn is_text_byte(byte: u8) -> bool
    ensures { result ≡ is_text_byte byte }
{
    matches!(byte, b' '..=b'~' | b'\t')
}
