//! How far a stretch of bytes goes.

ghost use Rattle.std.specs.Prelude.{◌≡◌, ◌==◌, ◌≤◌, length};
ghost use Rattle.std.specs.List.{position_or_len};
ghost use Rattle.agc_text.specs.Fields.{is_blank};
ghost use Rattle.agc_text.specs.Stretches.{ends};

/// What a stretch of bytes ends before.
#[derive(Clone, Copy)]
pub(crate) enum End {
    /// This byte.
    Byte(u8),
    /// A blank.
    Blank,
    /// A byte that is no blank.
    NoBlank,
}

impl End {
    fn is_at(self, byte: u8) -> bool
        ensures { result ≡ ends self byte }
    {
        match self {
            End::Byte(end) => byte == end,
            End::Blank => is_blank_byte(byte),
            End::NoBlank => !is_blank_byte(byte),
        }
    }
}

// How many bytes stand before the first at which the stretch ends. It is brought into its callers, so that each looks
// for one kind of end.
#[inline(always)]
pub(crate) fn length_before(text: &[u8], end: End) -> usize
    ensures value { result ≡ position_or_len (ends end) text.now }
    ensures within { result ≤ length text.now }
{
    for (i, byte) in text.iter().enumerate() {
        if end.is_at(*byte) {
            return i;
        }
    }
    text.len()
}

/// How many bytes stand before the first that is this one: all, where it does not stand.
pub fn length_before_byte(text: &[u8], end: u8) -> usize
    ensures value { result ≡ position_or_len (λ byte. byte == end) text.now }
    ensures within { result ≤ length text.now }
{
    length_before(text, End::Byte(end))
}

// A space or a tab.
pub(crate) fn is_blank_byte(byte: u8) -> bool
    ensures { result ≡ is_blank byte }
{
    byte == b' ' || byte == b'\t'
}
