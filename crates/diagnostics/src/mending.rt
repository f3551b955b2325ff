//! Cures that are an edit of the text.

ghost use Rattle.std.specs.Prelude.{◌≡◌, ◌≤◌, ◌+◌, length};
ghost use Rattle.std.specs.Option.{option_map};
ghost use Rattle.agc_text.specs.Tables.{value_in};
ghost use Rattle.agc_text.specs.Views.{piece};
ghost use Rattle.yayul.specs.Readings.{parts_in};
ghost use Rattle.diagnostics.specs.Mending.{behind_span, comment_span, end_in, first_begins, foreign_mends, gap_after};
ghost use Rattle.diagnostics.specs.Mending.{gap_span, indent_span, is_comment_at, line_at, mend_of, mends, octal_span};
ghost use Rattle.diagnostics.specs.Mending.{piece_span, sign_place, sign_span, span_at};
ghost use Rattle.diagnostics.specs.Views.{mend_in, mends_in};

use crate::causes::{is_beyond_octal, is_foreign_comment};
use crate::feeds::field_after;
use agc_text::{Field, length_before_byte, next_field};
use warnings::text_of;
use yayul::{Reading, Span};

/// Where an edit stands.
#[derive(Clone, Copy, Drop)]
pub(crate) enum At {
    /// At what is to blame.
    Blamed,
    /// In front of it, where it begins as comments in other languages do.
    BeforeComment,
    /// In front of the line.
    BeforeLine,
    /// In front of the first line.
    BeforeSource,
    /// In front of the sign that stands behind the first byte of the operand.
    BeforeSign,
    /// Behind the operand.
    BehindOperand,
    /// At the blanks between the offset and the next field.
    BehindOffset,
    /// At the operand.
    Operand,
    /// At the operator.
    Operator,
    /// At the operator, where the operand is decimal digits that are not octal.
    DecimalOperator,
    /// At the blanks before the operator, where no label stands.
    Indent,
    /// At the byte order mark.
    OrderMark,
}

/// An edit that mends a finding.
#[derive(Clone, Copy, Drop)]
pub(crate) struct Mend {
    /// Where it stands.
    pub(crate) at: At,
    /// What is put there, with marks as in a cause.
    pub(crate) put: &'static [u8],
    /// Whether it is what was meant for sure.
    pub(crate) is_sure: bool,
}

impl Mend {
    /// The line that it stands on, of a finding on a line.
    pub(crate) fn line(&self, line: u32) -> u64
        ensures { result ≡ line_at self.now.at line }
    {
        match self.at {
            At::BeforeSource => 1,
            _ => u64::from(line),
        }
    }
}

/// The edit that a cure is, in which another text may stand; none where it is no edit of the text.
#[tactic(auto, unfolding(crate::specs::Mending::mend_of))]
pub(crate) fn mend_of(cure: &[u8], meant: &[u8]) -> Option<Mend>
    ensures { option_map mend_in result ≡ mend_of cure.now meant.now }
{
    if cure == b"!".as_slice() {
        mend_among(foreign_mends(), meant)
    } else {
        mend_among(mends(), cure)
    }
}

// The edit that stands for a text in a table.
fn mend_among(table: &'static [(&'static str, Mend)], text: &[u8]) -> Option<Mend>
    ensures { option_map mend_in result ≡ value_in (mends_in table.now) text.now }
{
    for (name, mend) in table {
        if text == name.as_bytes() {
            return Some(*mend);
        }
    }
    None
}

// A row: a cure, where its edit stands, what is put there, and whether that is what was meant for sure.
macro_rules! mend {
    ($cure:literal, $at:ident, $put:literal, $is_sure:literal) => {
        (
            $cure,
            Mend {
                at: At::$at,
                put: $put,
                is_sure: $is_sure,
            },
        )
    };
}

static MENDS: [(&str, Mend); 19] = [
    mend!("did you mean !?", Blamed, b"!", true),
    mend!("did you mean ~?", Blamed, b"~", true),
    mend!("did you mean EVERY?", Blamed, b"EVERY", true),
    mend!("! takes DINC", Blamed, b"DINC", false),
    mend!("! takes PINC", Blamed, b"PINC", false),
    mend!("put a blank before &", BeforeLine, b"        ", true),
    mend!(
        "EXTEND on the line before, behind a blank",
        BeforeLine,
        b"        EXTEND\n",
        true
    ),
    mend!(
        "no register has a name beforehand; this line gives it one: @ EQUALS !",
        BeforeSource,
        b"@ EQUALS !\n",
        true
    ),
    mend!(
        "a label begins in the first column: no blank before %",
        Indent,
        b"",
        false
    ),
    mend!("tail -c +4 FILE > NEW", OrderMark, b"", true),
    mend!("@D is decimal", Operand, b"@D", false),
    mend!("% @D takes it as decimal", Operand, b"@D", false),
    mend!(
        "@ is one name; a blank stands before an offset",
        BeforeSign,
        b" ",
        false
    ),
    mend!("no blank stands between both", BehindOffset, b"", false),
    mend!(
        "B-28 behind @ makes @ the lower word",
        BehindOperand,
        b" B-28",
        false
    ),
    mend!("a comment begins with #", BeforeComment, b"# ", false),
    mend!("DEC takes decimal digits", DecimalOperator, b"DEC", false),
    mend!("BANK @", Operator, b"BANK", false),
    mend!("CA @", Operator, b"CA", false),
];

fn mends() -> &'static [(&'static str, Mend)]
    ensures { mends_in result.now ≡ mends }
{
    &MENDS
}

// Of another assembler's operators, by what is said of them.
static FOREIGN_MENDS: [(&str, Mend); 9] = [
    mend!("SETLOC sets the location", Operator, b"SETLOC", false),
    mend!("EQUALS gives a name its value", Operator, b"EQUALS", false),
    mend!("CA loads A", Operator, b"CA", false),
    mend!("TS stores A", Operator, b"TS", false),
    mend!("TC calls a routine", Operator, b"TC", false),
    mend!("RETURN goes back", Operator, b"RETURN", false),
    mend!("NOOP does nothing", Operator, b"NOOP", false),
    mend!("AD adds a word to A", Operator, b"AD", false),
    mend!("ERASE reserves a word", Operator, b"ERASE", false),
];

fn foreign_mends() -> &'static [(&'static str, Mend)]
    ensures { mends_in result.now ≡ foreign_mends }
{
    &FOREIGN_MENDS
}

/// The bytes of a line that an edit takes the place of, where a finding has some to blame; none where what it asks for
/// does not stand.
#[tactic(auto, unfolding(crate::specs::Mending::span_at))]
pub(crate) fn span_at(at: At, text: &[u8], parts: &Reading<'_>, blamed: &Span) -> Option<Span>
    ensures { result ≡ span_at at text.now (parts_in parts.now) blamed.now }
{
    match at {
        At::Blamed => Some(*blamed),
        At::BeforeComment => comment_span(text, blamed.start),
        At::BeforeLine | At::BeforeSource => Some(Span { start: 0, width: 0 }),
        At::BeforeSign => sign_span(text, parts.operand),
        At::BehindOperand => behind_span(text, parts.operand),
        At::BehindOffset => gap_span(text, parts.offset),
        At::Operand => piece_span(parts.operand),
        At::Operator => piece_span(parts.operator),
        At::DecimalOperator => octal_span(parts),
        At::Indent => indent_span(text, parts.operator),
        At::OrderMark => Some(Span { start: 0, width: 3 }),
    }
}

// In front of what begins as comments in other languages do.
fn comment_span(text: &[u8], start: usize) -> Option<Span>
    ensures { result ≡ comment_span text.now start }
{
    if is_comment_at(text, start) {
        Some(Span { start, width: 0 })
    } else {
        None
    }
}

// Whether what begins as comments in other languages do stands at a place of a text.
fn is_comment_at(text: &[u8], start: usize) -> bool
    ensures { result ≡ is_comment_at text.now start }
{
    is_foreign_comment(&text[start.min(text.len())..])
}

// In front of the sign of an operand, behind its first byte.
fn sign_span(text: &[u8], operand: Option<Field<'_>>) -> Option<Span>
    ensures { result ≡ sign_span text.now (option_map piece operand.entry) }
{
    match operand {
        Some(field) => Some(Span {
            start: field.start.min(text.len()) + sign_place(field.text),
            width: 0,
        }),
        None => None,
    }
}

// The place of the first sign behind the first byte.
fn sign_place(text: &[u8]) -> usize
    ensures place { result ≡ sign_place text.now }
    ensures within { result ≤ length text.now + 1 }
{
    let rest = &text[text.len().min(1)..];
    length_before_byte(rest, b'+').min(length_before_byte(rest, b'-')) + 1
}

// Behind the operand.
fn behind_span(text: &[u8], operand: Option<Field<'_>>) -> Option<Span>
    ensures { result ≡ behind_span text.now (option_map piece operand.entry) }
{
    match operand {
        Some(field) => Some(Span {
            start: end_in(text, field),
            width: 0,
        }),
        None => None,
    }
}

// The place after a field.
fn end_in(text: &[u8], field: Field<'_>) -> usize
    ensures { result ≡ end_in text.now (piece field.entry) }
{
    field.start.min(text.len()) + field.text.len()
}

// The blanks between an offset and the next field.
fn gap_span(text: &[u8], offset: Option<Field<'_>>) -> Option<Span>
    ensures { result ≡ gap_span text.now (option_map piece offset.entry) }
{
    match offset {
        Some(field) => gap_after(text, end_in(text, field)),
        None => None,
    }
}

// The blanks from a place to the next field.
fn gap_after(text: &[u8], start: usize) -> Option<Span>
    ensures { result ≡ gap_after text.now start }
{
    match next_field(text, start) {
        Some(next) => Some(Span {
            start,
            width: next.start.saturating_sub(start),
        }),
        None => None,
    }
}

// The bytes of a field.
fn piece_span(field: Option<Field<'_>>) -> Option<Span>
    ensures { result ≡ piece_span (option_map piece field.entry) }
{
    match field {
        Some(field) => Some(Span {
            start: field.start,
            width: field.text.len(),
        }),
        None => None,
    }
}

// The operator, where the operand is decimal digits that are not octal.
fn octal_span(parts: &Reading<'_>) -> Option<Span>
    ensures { result ≡ octal_span (parts_in parts.now) }
{
    if is_beyond_octal(text_of(parts.operand)) {
        piece_span(parts.operator)
    } else {
        None
    }
}

// The blanks before the operator, where it is the first field.
fn indent_span(text: &[u8], operator: Option<Field<'_>>) -> Option<Span>
    ensures { result ≡ indent_span text.now (option_map piece operator.entry) }
{
    match operator {
        Some(field) if first_begins(text, field.start) => Some(Span {
            start: 0,
            width: field.start,
        }),
        _ => None,
    }
}

// Whether the first field of a line begins at a place.
fn first_begins(text: &[u8], start: usize) -> bool
    ensures { result ≡ first_begins text.now start }
{
    match field_after(text, 0) {
        Some(first) => first.start == start,
        None => false,
    }
}
