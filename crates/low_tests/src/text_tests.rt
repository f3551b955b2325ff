//! Lines, fields and numbers of texts.

use agc_text::{
    Field, Line, Number, decimal, decimal_value, is_text, length_before_byte, next_field,
    next_line, octal, octal_value,
};

fn text_of<'a>(field: Option<Field<'a>>) -> &'a [u8] {
    match field {
        Some(field) => field.text,
        None => &[],
    }
}

#[test]
fn comments_end_fields(rt: HostRuntime) {
    let rows: [(&[u8], &[u8], &[u8], &[u8]); 4] = [
        (b"AB#C OCT 5", b"AB", b"", b""),
        (b"\tCA FIVE#x", b"", b"CA", b"FIVE"),
        (b"# CA FIVE", b"", b"", b""),
        (b"X TS\t Y  +1", b"X", b"TS", b"Y"),
    ];
    for (line, label, operator, operand) in rows {
        let parts = Line::of(line);
        assert_eq!(rt; text_of(parts.label), label);
        assert_eq!(rt; text_of(parts.operator), operator);
        assert_eq!(rt; text_of(parts.operand), operand);
        assert!(rt; !parts.more);
    }
}

#[test]
fn further_fields_are_told(rt: HostRuntime) {
    let parts = Line::of(b" TS Y +1 +2");
    assert_eq!(rt; text_of(parts.offset), b"+1".as_slice());
    assert!(rt; parts.more);
}

#[test]
fn a_byte_ends_a_stretch(rt: HostRuntime) {
    for (text, length) in [(b"2,17,5", 1), (b",,,,,,", 0), (b"2 17.5", 6)] {
        assert_eq!(rt; length_before_byte(text, b','), length);
    }
}

#[test]
fn fields_are_found_from_a_place(rt: HostRuntime) {
    let line = b"AT 12  CH # IN";
    let rows: [(usize, usize, &[u8]); 4] = [
        (0, 0, b"AT"),
        (1, 3, b"12"),
        (3, 3, b"12"),
        (4, 7, b"CH"),
    ];
    for (from, start, text) in rows {
        let field = next_field(line, from);
        assert_eq!(rt; text_of(field), text);
        assert_eq!(rt; field.map_or(99, |f| f.start), start);
    }
    assert!(rt; next_field(line, 8).is_none());
}

#[test]
fn line_feeds_end_lines(rt: HostRuntime) {
    let rows: [(&[u8], &[u8], &[u8]); 5] = [
        (b"\n", b"", b""),
        (b"\n\n", b"", b"\n"),
        (b"A\nB", b"A", b"B"),
        (b"A\n\nB\n", b"A", b"\nB\n"),
        (b"B", b"B", b""),
    ];
    for (text, line, rest) in rows {
        match next_line(text) {
            Some((first, following)) => {
                assert_eq!(rt; first, line);
                assert_eq!(rt; following, rest);
            }
            None => panic!(rt; "a line is missing"),
        }
    }
    assert!(rt; next_line(b"").is_none());
}

#[test]
fn numbers_have_any_count_of_digits(rt: HostRuntime) {
    assert_eq!(rt;
        octal_value(b"0000000000000000000005"),
        Some(Number::Small(5))
    );
    assert_eq!(rt;
        octal_value(b"37777777777"),
        Some(Number::Small(4294967295))
    );
    assert_eq!(rt; octal_value(b"40000000000"), Some(Number::Large));
    assert_eq!(rt;
        octal_value(b"1000000000000000000000000000000"),
        Some(Number::Large)
    );
    assert_eq!(rt; octal_value(b"8"), None);
    assert_eq!(rt; octal_value(b""), None);
    assert_eq!(rt;
        decimal_value(b"0004294967295"),
        Some(Number::Small(4294967295))
    );
    assert_eq!(rt; decimal_value(b"4294967296"), Some(Number::Large));
    assert_eq!(rt; decimal_value(b"12D"), None);
}

#[test]
fn numbers_of_few_digits(rt: HostRuntime) {
    assert_eq!(rt; octal(b"777", 3), Some(511));
    assert_eq!(rt; octal(b"0777", 3), None);
    assert_eq!(rt; octal(b"79", 3), None);
    assert_eq!(rt; decimal(b"999999999999999", 15), Some(999999999999999));
    assert_eq!(rt; decimal(b"0999999999999999", 15), None);
    assert_eq!(rt; decimal(b"", 15), None);
}

#[test]
fn each_byte_of_a_line_counts(rt: HostRuntime) {
    let mut line = [b'a'; 40];
    assert!(rt; is_text(&line));
    assert!(rt; is_text(b""));
    for place in 0..40 {
        for byte in [b' ', b'~', b'\t'] {
            line[place] = byte;
            assert!(rt; is_text(&line));
        }
        for byte in [0, 8, b'\n', 0x1f, 0x7f, 0x80, 0xff] {
            line[place] = byte;
            assert!(rt; !is_text(&line));
        }
        line[place] = b'a';
    }
}
