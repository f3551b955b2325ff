//! The registers and the counters by their names.

ghost use Rattle.std.specs.Prelude.{◌≡◌, ◌∷◌};
ghost use Rattle.std.specs.Option.{option_map};
ghost use Rattle.agc_text.specs.Tables.{same_name, value_in};
ghost use Rattle.symbols.specs.Registers.{begins_register, entries, registers};

const REGISTERS: [(&str, &str); 36] = [
    ("A", "0"),
    ("L", "1"),
    ("Q", "2"),
    ("EBANK", "3"),
    ("EB", "3"),
    ("FBANK", "4"),
    ("FB", "4"),
    ("Z", "5"),
    ("BBANK", "6"),
    ("BB", "6"),
    ("ZERO", "7"),
    ("ARUPT", "10"),
    ("LRUPT", "11"),
    ("QRUPT", "12"),
    ("ZRUPT", "15"),
    ("BBRUPT", "16"),
    ("BRUPT", "17"),
    ("CYR", "20"),
    ("SR", "21"),
    ("CYL", "22"),
    ("EDOP", "23"),
    ("TIME2", "24"),
    ("TIME1", "25"),
    ("TIME3", "26"),
    ("TIME4", "27"),
    ("TIME5", "30"),
    ("TIME6", "31"),
    ("CDUX", "32"),
    ("CDUY", "33"),
    ("CDUZ", "34"),
    ("OPTY", "35"),
    ("OPTX", "36"),
    ("PIPAX", "37"),
    ("PIPAY", "40"),
    ("PIPAZ", "41"),
    ("INLINK", "45"),
];

/// The place of the register or the counter of a name, in octal digits.
pub fn register_place(name: &[u8]) -> Option<&'static [u8]>
    ensures { option_map (λ place. place.now) result ≡ value_in registers name.now }
{
    match name.split_first() {
        Some((first, rest)) => place_of_parts(*first, rest),
        None => None,
    }
}

// The place of the register or the counter of a name's first byte and the rest.
fn place_of_parts(first: u8, rest: &[u8]) -> Option<&'static [u8]>
    ensures { option_map (λ place. place.now) result ≡ value_in registers (first ∷ rest.now) }
{
    if begins_register(first) {
        place_in(registers(), first, rest)
    } else {
        None
    }
}

// Whether the name of some register or counter begins with a byte.
fn begins_register(first: u8) -> bool
    ensures { result ≡ begins_register first }
{
    matches!(
        first,
        b'A' | b'B' | b'C' | b'E' | b'F' | b'I' | b'L' | b'O' | b'P' | b'Q' | b'S' | b'T' | b'Z'
    )
}

fn registers() -> &'static [(&'static str, &'static str)]
    ensures { entries result.now ≡ registers }
{
    &REGISTERS
}

// The place that stands beside the name of a first byte and the rest. Most names differ in their first bytes.
fn place_in(
    table: &'static [(&'static str, &'static str)],
    first: u8,
    rest: &[u8],
) -> Option<&'static [u8]>
    ensures { option_map (λ place. place.now) result ≡ value_in (entries table.now) (first ∷ rest.now) }
{
    for (register, place) in table {
        if has_parts(register.as_bytes(), first, rest) {
            return Some(place.as_bytes());
        }
    }
    None
}

// Whether a name is of a first byte and the rest.
fn has_parts(name: &[u8], first: u8, rest: &[u8]) -> bool
    ensures { result ≡ same_name (first ∷ rest.now) name.now }
{
    match name.split_first() {
        Some((begin, more)) => first == *begin && rest == more,
        None => false,
    }
}
