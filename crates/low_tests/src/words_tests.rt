//! Worked examples of the arithmetic, and devices that are in trouble at each place.

use arrayvec::ArrayVec;
use std::io;
use test_devices::{FaultyReader, FaultyWriter, Trouble};
use words::{
    Buffer, Carry, CounterStep, Overflow, Product, Quotient, Read, ReadAhead, ReadFault, Std, Wide,
    Word, WordFault, Write, WriteFailed, div, push_all, push_decimal, push_octal, read_text,
    write_all,
};

fn word(number: u16) -> Word {
    Word::of_low_bits(number)
}

fn wide(number: u16) -> Wide {
    Wide::of_u16(number)
}

fn step(number: u16, carry: Carry) -> CounterStep {
    CounterStep {
        word: word(number),
        carry,
    }
}

fn product(high: u16, low: u16) -> Product {
    Product {
        high: word(high),
        low: word(low),
    }
}

fn quotient(quotient: u16, remainder: u16) -> Quotient {
    Quotient {
        quotient: word(quotient),
        remainder: word(remainder),
    }
}

#[test]
fn words_have_fifteen_bits(rt: HostRuntime) {
    assert_eq!(rt; Word::try_from_u16(0o77777).ok(), Some(word(0o77777)));
    assert!(rt; matches!(Word::try_from_u16(0o100000), Err(WordFault::OutOfWord)));
    assert_eq!(rt; word(0o123456).to_u16(), 0o23456);
    assert_eq!(rt; word(0o77776).neg(), word(1));
}

#[test]
fn ts_overflow_both_ways(rt: HostRuntime) {
    let plus = wide(0o37777).add(word(1).extend());
    assert_eq!(rt; plus.overflow(), Overflow::Plus);
    assert_eq!(rt; plus.correct(), word(0));
    let minus = wide(0o140000).add(word(0o77776).extend());
    assert_eq!(rt; minus.overflow(), Overflow::Minus);
    assert_eq!(rt; minus.correct(), word(0o77777));
}

#[test]
fn counter_steps_and_sums(rt: HostRuntime) {
    assert_eq!(rt; wide(5).add(wide(0o177772)), wide(0o177777));
    assert_eq!(rt; wide(5).add(wide(0o177772)).overflow(), Overflow::No);
    assert_eq!(rt; Wide::ZERO.add(Wide::ZERO), Wide::ZERO);
    for number in [0o00001, 0o77776, 0o77777] {
        assert_eq!(rt; word(number).dinc(), step(0, Carry::No), "at {number:o}");
    }
    assert_eq!(rt; word(0o37777).pinc(), step(0, Carry::Plus));
    assert_eq!(rt; word(0o40000).minc(), step(0o77777, Carry::Minus));
    assert_eq!(rt; word(0o77777).pcdu(), step(0, Carry::No));
    assert_eq!(rt; word(0).mcdu(), step(0o77777, Carry::No));
    assert_eq!(rt; word(0o40000).shinc(), step(0, Carry::ShiftedOut));
    assert_eq!(rt; word(0o40000).shanc(), step(1, Carry::ShiftedOut));
    assert_eq!(rt; word(0o77777).edop(), word(0o177));
    assert_eq!(rt; word(1).cyr(), word(0o40000));
    assert_eq!(rt; word(0o77776).mul(word(2)), product(0o77777, 0o77775));
}

#[test]
fn bits_and_edits(rt: HostRuntime) {
    let (one, other) = (wide(0o123456), wide(0o007070));
    assert_eq!(rt; one.and(other), wide(0o003050));
    assert_eq!(rt; one.or(other), wide(0o127476));
    assert_eq!(rt; one.xor(other), wide(0o124426));
    assert_eq!(rt; one.neg(), wide(0o054321));
    let (one, other) = (word(0o53456), word(0o47070));
    assert_eq!(rt; one.and(other), word(0o43050));
    assert_eq!(rt; one.or(other), word(0o57476));
    assert_eq!(rt; one.xor(other), word(0o14426));
    for (number, right, left) in [
        (0o40003, 0o60001, 0o00007),
        (0o00003, 0o00001, 0o00006),
        (0o20000, 0o10000, 0o40000),
    ] {
        assert_eq!(rt; word(number).sr(), word(right), "at {number:o}");
        assert_eq!(rt; word(number).cyl(), word(left), "at {number:o}");
    }
    for (number, diminished) in [(5, 4), (1, 0), (0, 0), (0o177772, 4), (0o177777, 0)] {
        assert_eq!(rt; wide(number).dabs(), wide(diminished), "at {number:o}");
    }
}

#[test]
fn zeros_and_signs(rt: HostRuntime) {
    for (number, zero, minus) in [
        (0, true, false),
        (1, false, false),
        (0o77777, false, false),
        (0o100000, false, true),
        (0o177776, false, true),
        (0o177777, true, true),
    ] {
        assert_eq!(rt; wide(number).is_zero(), zero, "at {number:o}");
        assert_eq!(rt; wide(number).is_minus(), minus, "at {number:o}");
    }
    assert_eq!(rt; Wide::MINUS_ZERO, Wide::ZERO.neg());
}

#[test]
fn product_then_quotient(rt: HostRuntime) {
    let squared = word(0o20000).mul(word(0o20000));
    assert_eq!(rt; squared, product(0o10000, 0));
    assert_eq!(rt;
        div(squared.high, squared.low, word(0o20000)),
        quotient(0o20000, 0)
    );
}

#[test]
fn quotient_corners(rt: HostRuntime) {
    assert_eq!(rt; div(word(1), word(2), word(0)), quotient(0o37777, 2));
    assert_eq!(rt; div(word(3), word(0), word(3)), quotient(0o37777, 0));
    assert_eq!(rt; div(word(3), word(0), word(0o77774)), quotient(0o40000, 0));
    assert_eq!(rt;
        div(word(0), word(0o77776), word(2)),
        quotient(0o77777, 0o77776)
    );
    assert_eq!(rt;
        div(word(0o77777), word(0), word(2)),
        quotient(0o77777, 0o77777)
    );
}

#[test]
fn modular_difference(rt: HostRuntime) {
    assert_eq!(rt; word(1).modular_sub(word(2)).extend(), wide(0o177776));
}

#[test]
#[tactic(auto, using(words::proofs::Digits::short_decimal))]
fn texts_without_memory(rt: HostRuntime) {
    let mut line = ArrayVec::<u8, 40>::new();
    push_decimal(&mut line, 7);
    push_all(&mut line, b" CH ");
    push_octal(&mut line, 3, 0o10);
    push_all(&mut line, b" ");
    push_octal(&mut line, 5, 0o12);
    push_all(&mut line, b"\n");
    assert_eq!(rt; line.as_slice(), b"7 CH 010 00012\n".as_slice());
}

#[test]
fn writers_in_trouble_at_each_place(rt: HostRuntime) {
    let text = b"hello";
    for trouble in [Trouble::Fails, Trouble::TakesNothing] {
        for place in 0..text.len() {
            let mut out = FaultyWriter::new(rt.alloc(), Some(place), trouble);
            assert_eq!(rt; write_all(&mut out, text), Err(WriteFailed), "at {place}");
            assert_eq!(rt; out.as_slice(), &text[..place], "at {place}");
        }
        let mut out = FaultyWriter::new(rt.alloc(), Some(text.len()), trouble);
        assert_eq!(rt; write_all(&mut out, text), Ok(()));
        assert_eq!(rt; out.as_slice(), text.as_slice());
    }
}

#[test]
fn each_trouble_comes_once(rt: HostRuntime) {
    for (trouble, answer) in [(Trouble::Fails, None), (Trouble::TakesNothing, Some(0))] {
        let mut out = FaultyWriter::new(rt.alloc(), Some(1), trouble);
        assert_eq!(rt; out.write(b"").ok(), Some(0));
        assert_eq!(rt; out.write(b"hello").ok(), Some(1));
        assert_eq!(rt; out.write(b"").ok(), Some(0));
        assert_eq!(rt; out.write(b"ello").ok(), answer);
        assert_eq!(rt; out.write(b"ello").ok(), Some(1));
        assert_eq!(rt; out.as_slice(), b"he".as_slice());
    }
}

#[test]
fn readers_in_trouble_at_each_call(rt: HostRuntime) -> Result<(), ReadFault> {
    let text = b"hello";
    for place in 0..=text.len() {
        let mut reader = FaultyReader::new(text, Some(place));
        let first = read_text(rt.alloc(), &mut reader, text.len());
        assert!(rt; matches!(first, Err(ReadFault::ReadFailed)), "at {place}");
        let rest = read_text(rt.alloc(), &mut reader, text.len())?;
        assert_eq!(rt; rest.as_slice(), &text[place..], "at {place}");
    }
    Ok(())
}

#[test]
fn texts_at_their_limit_and_past(rt: HostRuntime) -> Result<(), ReadFault> {
    let mut source: &[u8] = b"hello";
    assert_eq!(rt;
        read_text(rt.alloc(), &mut source, 5)?.as_slice(),
        b"hello".as_slice()
    );
    let mut longer: &[u8] = b"hello, you";
    let refused = read_text(rt.alloc(), &mut longer, 5);
    assert!(rt; matches!(refused, Err(ReadFault::TooLong)));
    assert_eq!(rt; longer, b" you".as_slice());
    let mut slow = FaultyReader::new(b"hello, you", None);
    let refused = read_text(rt.alloc(), &mut slow, 5);
    assert!(rt; matches!(refused, Err(ReadFault::TooLong)));
    assert_eq!(rt;
        read_text(rt.alloc(), &mut slow, 5)?.as_slice(),
        b" you".as_slice()
    );
    Ok(())
}

#[test]
fn bytes_read_ahead_are_the_same(rt: HostRuntime) -> Result<(), ReadFault> {
    let mut text = [0; 20_000];
    for place in 0..20_000usize {
        text[place] = (place % 256) as u8;
    }
    let mut reader = ReadAhead::new(text.as_slice());
    assert_eq!(rt; reader.ready().len(), 0);
    assert_eq!(rt; reader.read(&mut [0]).ok(), Some(1));
    assert_eq!(rt; reader.ready(), &text[1..8192]);
    assert!(rt; !reader.pass(8192));
    assert!(rt; reader.pass(8190));
    assert_eq!(rt;
        read_text(rt.alloc(), &mut reader, 20_000)?.as_slice(),
        &text[8191..]
    );
    let text = b"hello";
    for place in 0..=text.len() {
        let mut reader = ReadAhead::new(FaultyReader::new(text, Some(place)));
        let first = read_text(rt.alloc(), &mut reader, text.len());
        assert!(rt; matches!(first, Err(ReadFault::ReadFailed)), "at {place}");
        let rest = read_text(rt.alloc(), &mut reader, text.len())?;
        assert_eq!(rt; rest.as_slice(), &text[place..], "at {place}");
    }
    Ok(())
}

/// A writer of the standard library that holds back what is written until it is flushed.
#[derive(Drop)]
struct Held<'a> {
    held: Vec<u8>,
    handed_on: &'a mut Vec<u8>,
}

impl<'a> io::Write for Held<'a> {
    fn write(&mut self, buf: &[u8]) -> io::Result<usize> {
        self.held.extend_from_slice(buf)?;
        Ok(buf.len())
    }

    fn flush(&mut self) -> io::Result<()> {
        self.handed_on.extend_from_slice(self.held.as_slice())?;
        self.held.clear();
        Ok(())
    }
}

#[test]
fn standard_devices(rt: HostRuntime) -> Result<(), ReadFault> {
    let mut reader = Std::new(b"hello".as_slice());
    let mut part = [0; 2];
    assert!(rt; matches!(reader.read(&mut part), Ok(2)));
    assert_eq!(rt; part, *b"he");
    assert_eq!(rt;
        read_text(rt.alloc(), &mut reader, 5)?.as_slice(),
        b"llo".as_slice()
    );
    let mut bytes = Vec::new(rt.alloc());
    let mut out = Std::new(Held {
        held: Vec::new(rt.alloc()),
        handed_on: &mut bytes,
    });
    assert_eq!(rt; write_all(&mut out, b"hello"), Ok(()));
    assert!(rt; out.flush().is_ok());
    assert_eq!(rt; write_all(&mut out, b" and more"), Ok(()));
    drop(out);
    assert_eq!(rt; bytes.as_slice(), b"hello".as_slice());
    Ok(())
}

/// A writer of the standard library that takes all bytes and fails to hand them on.
#[derive(Drop)]
struct HoldsBack;

impl io::Write for HoldsBack {
    fn write(&mut self, buf: &[u8]) -> io::Result<usize> {
        Ok(buf.len())
    }

    fn flush(&mut self) -> io::Result<()> {
        Err(io::Error::from(io::ErrorKind::Other))
    }
}

#[test]
fn flush_that_fails(rt: HostRuntime) {
    let mut out = Std::new(HoldsBack);
    assert_eq!(rt; write_all(&mut out, b"hello"), Ok(()));
    assert!(rt; out.flush().is_err());
}

#[test]
fn always_out_of_memory(rt: HostRuntime) -> Result<(), ReadFault> {
    let mut out = Buffer::new(rt.alloc());
    assert_eq!(rt; write_all(&mut out, b"hello"), Ok(()));
    assert_eq!(rt; out.as_slice(), b"hello".as_slice());
    let mut slow = FaultyWriter::new(rt.alloc(), None, Trouble::Fails);
    assert_eq!(rt; write_all(&mut slow, b"hello"), Ok(()));
    let mut reader = FaultyReader::new(b"hello", None);
    assert_eq!(rt; read_text(rt.alloc(), &mut reader, 5)?.len(), 5);
    Ok(())
}
