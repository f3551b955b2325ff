//! Verdicts on tests as other tools take them: TAP, version 14, and the XML of JUnit.

use agc_text::next_line;
use plans::Verdicts;
use std::str;
use words::{Write, WriteFailed, write_all};

/// What stands between the name of a test and what is told of its failure.
const BEFORE_FAILURE: &[u8] = b": line ";

/// How the line of a test that is met begins, and how many bytes stand before its name.
const MET: &[u8] = b"ok  ";

const BEFORE_NAME: usize = 5;

/// A verdict: the name of the test, and what is told of its failure.
#[derive(Clone, Copy, Drop)]
struct Verdict<'a> {
    name: &'a [u8],
    failure: Option<&'a [u8]>,
}

/// Begins what is told of all files.
pub fn begin<W: Write>(form: Verdicts, out: &mut W) -> Result<(), WriteFailed> {
    match form {
        Verdicts::Lines => Ok(()),
        Verdicts::Tap => write_all(out, b"TAP version 14\n"),
        Verdicts::Junit => write_all(
            out,
            b"<?xml version=\"1.0\" encoding=\"UTF-8\"?>\n<testsuites>\n",
        ),
    }
}

/// Ends it, after so many tests.
pub fn end<W: Write>(form: Verdicts, tests: u64, out: &mut W) -> Result<(), WriteFailed> {
    match form {
        Verdicts::Lines => Ok(()),
        Verdicts::Tap => {
            write_all(out, b"1..")?;
            write_number(tests, out)?;
            write_all(out, b"\n")
        }
        Verdicts::Junit => write_all(out, b"</testsuites>\n"),
    }
}

/// Tells the verdicts of a file, which its lines tell for people, after so many tests of other files; answers how many
/// tests there are then. Without lines the file was refused.
pub fn tell<W: Write>(
    form: Verdicts,
    file: &str,
    lines: Option<&[u8]>,
    before: u64,
    out: &mut W,
) -> Result<u64, WriteFailed> {
    match form {
        Verdicts::Lines => {
            write_all(out, lines.unwrap_or(b""))?;
            Ok(before)
        }
        Verdicts::Tap => tell_tap(file, lines, before, out),
        Verdicts::Junit => {
            tell_junit(file, lines, out)?;
            Ok(before)
        }
    }
}

/// The same as TAP.
fn tell_tap<W: Write>(
    file: &str,
    lines: Option<&[u8]>,
    before: u64,
    out: &mut W,
) -> Result<u64, WriteFailed> {
    let Some(text) = lines else {
        let number = before.saturating_add(1);
        write_all(out, b"not ok ")?;
        write_number(number, out)?;
        write_all(out, b" - ")?;
        write_plain(file.as_bytes(), out)?;
        write_all(out, b"\n  ---\n  message: \"it is refused\"\n  ...\n")?;
        return Ok(number);
    };
    let mut rest = text;
    let mut number = before;
    for _ in 0..text.len() {
        let Some((line, following)) = next_line(rest) else {
            break;
        };
        rest = following;
        number = number.saturating_add(1);
        write_tap(file, number, &verdict_of(line), out)?;
    }
    Ok(number)
}

/// Writes a verdict as TAP.
fn write_tap<W: Write>(
    file: &str,
    number: u64,
    verdict: &Verdict<'_>,
    out: &mut W,
) -> Result<(), WriteFailed> {
    if verdict.failure.is_some() {
        write_all(out, b"not ")?;
    }
    write_all(out, b"ok ")?;
    write_number(number, out)?;
    write_all(out, b" - ")?;
    write_plain(verdict.name, out)?;
    write_all(out, b"\n")?;
    let Some(failure) = verdict.failure else {
        return Ok(());
    };
    write_all(out, b"  ---\n  file: \"")?;
    write_plain(file.as_bytes(), out)?;
    write_all(out, b"\"\n  message: \"")?;
    write_plain(failure, out)?;
    write_all(out, b"\"\n  ...\n")
}

/// Writes a text of TAP, in which a sign that has a meaning there has a backslash before it.
fn write_plain<W: Write>(text: &[u8], out: &mut W) -> Result<(), WriteFailed> {
    for byte in text {
        match *byte {
            b'\\' => write_all(out, b"\\\\")?,
            b'#' => write_all(out, b"\\#")?,
            b'"' => write_all(out, b"\\\"")?,
            0..=31 | 127 => write_all(out, b"?")?,
            other => write_all(out, &[other])?,
        }
    }
    Ok(())
}

/// Tells the verdicts of a file as JUnit does.
fn tell_junit<W: Write>(file: &str, lines: Option<&[u8]>, out: &mut W) -> Result<(), WriteFailed> {
    let Some(text) = lines else {
        begin_suite(file, 1, 0, 1, out)?;
        begin_case(file, file.as_bytes(), out)?;
        write_all(
            out,
            b"><error message=\"it is refused\"/></testcase>\n</testsuite>\n",
        )?;
        return Ok(());
    };
    let (tests, failures) = counts(text);
    begin_suite(file, tests, failures, 0, out)?;
    let mut rest = text;
    for _ in 0..text.len() {
        let Some((line, following)) = next_line(rest) else {
            break;
        };
        rest = following;
        write_case(file, &verdict_of(line), out)?;
    }
    write_all(out, b"</testsuite>\n")
}

/// How many tests the lines of a file tell, and how many of them are not met.
fn counts(text: &[u8]) -> (u64, u64) {
    let mut rest = text;
    let mut tests = 0_u64;
    let mut failures = 0_u64;
    for _ in 0..text.len() {
        let Some((line, following)) = next_line(rest) else {
            break;
        };
        rest = following;
        tests = tests.saturating_add(1);
        if !line.starts_with(MET) {
            failures = failures.saturating_add(1);
        }
    }
    (tests, failures)
}

/// Begins the tests of a file.
fn begin_suite<W: Write>(
    file: &str,
    tests: u64,
    failures: u64,
    errors: u64,
    out: &mut W,
) -> Result<(), WriteFailed> {
    write_all(out, b"<testsuite name=\"")?;
    write_marked(file.as_bytes(), out)?;
    write_all(out, b"\" tests=\"")?;
    write_number(tests, out)?;
    write_all(out, b"\" failures=\"")?;
    write_number(failures, out)?;
    write_all(out, b"\" errors=\"")?;
    write_number(errors, out)?;
    write_all(out, b"\">\n")
}

/// Begins a test.
fn begin_case<W: Write>(file: &str, name: &[u8], out: &mut W) -> Result<(), WriteFailed> {
    write_all(out, b"<testcase classname=\"")?;
    write_marked(file.as_bytes(), out)?;
    write_all(out, b"\" name=\"")?;
    write_marked(name, out)?;
    write_all(out, b"\"")
}

/// Writes a verdict as JUnit does.
fn write_case<W: Write>(file: &str, verdict: &Verdict<'_>, out: &mut W) -> Result<(), WriteFailed> {
    begin_case(file, verdict.name, out)?;
    match verdict.failure {
        Some(failure) => {
            write_all(out, b"><failure message=\"")?;
            write_marked(failure, out)?;
            write_all(out, b"\"/></testcase>\n")
        }
        None => write_all(out, b"/>\n"),
    }
}

/// Writes a text of XML; bytes that it may not have are question marks.
fn write_marked<W: Write>(text: &[u8], out: &mut W) -> Result<(), WriteFailed> {
    let is_unicode = str::from_utf8(text).is_ok();
    for byte in text {
        match *byte {
            b'&' => write_all(out, b"&amp;")?,
            b'<' => write_all(out, b"&lt;")?,
            b'>' => write_all(out, b"&gt;")?,
            b'"' => write_all(out, b"&quot;")?,
            0..=31 | 127 => write_all(out, b"?")?,
            128..=255 if !is_unicode => write_all(out, b"?")?,
            other => write_all(out, &[other])?,
        }
    }
    Ok(())
}

/// Writes a number.
fn write_number<W: Write>(number: u64, out: &mut W) -> Result<(), WriteFailed> {
    let mut digits = [b'0'; 20];
    let mut rest = number;
    let mut at = digits.len();
    for _ in 0..20 {
        if at == 0 {
            break;
        }
        at -= 1;
        if let Some(digit) = digits.get_mut(at) {
            *digit = b'0' + (rest % 10) as u8;
        }
        rest /= 10;
        if rest == 0 {
            break;
        }
    }
    write_all(out, digits.get(at..).unwrap_or(b""))
}

/// The verdict that a line tells.
fn verdict_of(line: &[u8]) -> Verdict<'_> {
    let named = line.get(BEFORE_NAME..).unwrap_or(b"");
    if line.starts_with(MET) {
        return Verdict {
            name: named,
            failure: None,
        };
    }
    let at = last_of(named, BEFORE_FAILURE);
    Verdict {
        name: named.get(..at).unwrap_or(named),
        failure: Some(named.get(at.saturating_add(2)..).unwrap_or(b"")),
    }
}

/// Where some bytes stand last in others; where they do not, their end.
fn last_of(text: &[u8], sought: &[u8]) -> usize {
    let mut at = text.len();
    for start in 0..text.len() {
        if text[start..].starts_with(sought) {
            at = start;
        }
    }
    at
}
