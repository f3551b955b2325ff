//! Devices that fail, that end, and that move a byte a call, under every engine.

use crate::sources::{FIVE_PLUS_FIVE, IMAGE_BYTES, IMAGE_OF_TWO, LISTING, image_of};
use rope::RopeFault;
use space::Bank;
use std::alloc::Global;
use std::process::Abort;
use test_devices::{FaultyReader, FaultyWriter, Trouble};
use words::{Buffer, Read, Write};
use workshop::{
    Compared, Language, Origin, RopeText, RunEnd, Unheard, Version, WorkshopFault, asm_engine,
    compare_engine, debug_program, run_program, show_engine, upgrade_engine,
};

/// The engines.
#[derive(Clone, Copy, Drop)]
enum Engine {
    Assembly,
    Run,
    RunImage,
    Debug,
    DebugImage,
    Upgrade,
    Words,
    Compare,
    Sums,
}

/// An engine, what it reads from as many readers, and what it writes: the front of its text, the whole text's length,
/// and the listing beside it.
#[derive(Drop)]
struct Row<'a> {
    engine: Engine,
    readers: usize,
    inputs: [&'a [u8]; 3],
    front: &'a [u8],
    bytes: usize,
    listing: &'a [u8],
}

/// The devices of an engine, which uses as many as it needs.
#[derive(Drop)]
struct Devices<R, W> {
    first: R,
    second: R,
    third: R,
    out: W,
    listing: W,
}

impl<R: Read, W: Write> Devices<R, W> {
    /// What an engine answers.
    fn answer(&mut self, alloc: Global, engine: Engine) -> Result<(), WorkshopFault> {
        let (first, second, third) = (&mut self.first, &mut self.second, &mut self.third);
        let (out, two) = (&mut self.out, Version::Two);
        match engine {
            Engine::Assembly => asm_engine(
                alloc,
                Language::Standard,
                first,
                out,
                &mut self.listing,
                two,
            ),
            Engine::Run => run_ten(alloc, source(), first, second, out),
            Engine::RunImage => run_ten(alloc, Origin::Image(two), first, second, out),
            Engine::Debug => debug_program(alloc, source(), first, second, third, out),
            Engine::DebugImage => {
                debug_program(alloc, Origin::Image(two), first, second, third, out)
            }
            Engine::Upgrade => upgrade_engine(alloc, first, out),
            Engine::Words => {
                let text = RopeText::Words(Bank::try_new(2));
                show_engine(alloc, first, two, text, out)
            }
            Engine::Compare => match compare_engine(
                alloc,
                first,
                two,
                second,
                two,
                &mut Compared::Old,
                out,
            ) {
                Ok(_) => Ok(()),
                Err(fault) => Err(fault),
            },
            Engine::Sums => show_engine(alloc, first, two, RopeText::Sums, out),
        }
    }
}

/// A source of the standard language.
fn source() -> Origin {
    Origin::Source(Language::Standard)
}

/// Runs a program for ten steps.
fn run_ten<P: Read, F: Read, W: Write>(
    alloc: Global,
    origin: Origin,
    program: &mut P,
    feed: &mut F,
    out: &mut W,
) -> Result<(), WorkshopFault> {
    let end = RunEnd::Steps;
    run_program(alloc, origin, program, feed, end, 10, out, &mut Unheard)?;
    Ok(())
}

/// Devices over memory.
fn plain<'a>(alloc: Global, inputs: &[&'a [u8]; 3]) -> Devices<&'a [u8], Buffer> {
    Devices {
        first: inputs[0],
        second: inputs[1],
        third: inputs[2],
        out: Buffer::new(alloc),
        listing: Buffer::new(alloc),
    }
}

/// Devices that move a byte a call, and readers that fail once after so many calls.
fn slow<'a>(
    alloc: Global,
    inputs: &[&'a [u8]; 3],
    fails_after: [Option<usize>; 3],
) -> Devices<FaultyReader<'a>, FaultyWriter> {
    Devices {
        first: FaultyReader::new(inputs[0], fails_after[0]),
        second: FaultyReader::new(inputs[1], fails_after[1]),
        third: FaultyReader::new(inputs[2], fails_after[2]),
        out: FaultyWriter::new(alloc, None, Trouble::Fails),
        listing: FaultyWriter::new(alloc, None, Trouble::Fails),
    }
}

/// Writers that take a byte a call, and are in trouble once after so many bytes.
fn broken<'a>(
    alloc: Global,
    inputs: &[&'a [u8]; 3],
    fails_after: [Option<usize>; 2],
    trouble: Trouble,
) -> Devices<&'a [u8], FaultyWriter> {
    Devices {
        first: inputs[0],
        second: inputs[1],
        third: inputs[2],
        out: FaultyWriter::new(alloc, fails_after[0], trouble),
        listing: FaultyWriter::new(alloc, fails_after[1], trouble),
    }
}

/// Whether a place of a text is tried: each one of a short text; of a long one those at both ends, and some between.
fn is_tried(place: usize, length: usize) -> bool {
    length < 512 || place < 32 || place.saturating_add(8) > length || place % 4_099 == 0
}

const FEED: &[u8] = b"3 TIME1 PINC\n";

const LINES: &[u8] = b"8 CH 010 00012\n16 CH 010 00012\n";

const COMMANDS: &[u8] = b"step 10\nfly\nback 6\nmem 25";

const REPLIES: &[u8] = b"8 CH 010 00012
16 CH 010 00012
AT 10 16 4004
E50 COMMAND
AT 4 6 4003
MEM 00001
";

/// How many bytes of the commands are whole lines, and how many bytes are replied to these.
const WHOLE_LINES: [(usize, usize); 3] = [(8, 45), (12, 57), (19, 69)];

const WORDS: &[u8] = b"02,4000 34005 CA 4005
02,4001 64005 AD 4005
02,4002 00006 EXTEND
02,4003 01010 WRITE 010
02,4004 14000 TCF 4000
02,4005 00005 TC 0005
02,4006 00000 TC 0000
";

const DIFFERENCES: &[u8] = b"02,4000 34005 00000 CA 4005, TC 0000
02,4001 64005 00000 AD 4005, TC 0000
02,4002 00006 00000 EXTEND, TC 0000
02,4003 01010 00000 WRITE 010, TC 0000
02,4004 14000 00000 TCF 4000, TC 0000
02,4005 00005 00006 TC 0005, EXTEND
43,2000 00000 00007 TC 0000, TC 0007
COUNT 7
";

const SUMS: &[u8] = b"00 00000\n01 00000\n02 35036\n03 00000\n04 00000\n";

/// Images that the engines read.
#[derive(Drop)]
struct Images {
    old: Buffer,
    new: Buffer,
    other: Buffer,
}

/// The image of five plus five in both versions, and another.
fn make_images(alloc: Global) -> Images {
    Images {
        old: image_of(alloc, FIVE_PLUS_FIVE, Version::One),
        new: image_of(alloc, FIVE_PLUS_FIVE, Version::Two),
        other: image_of(
            alloc,
            b" SETLOC 4005\n OCT 6\n BANK 43\n OCT 7\n",
            Version::Two,
        ),
    }
}

/// A row of an engine that writes no listing.
fn plain_row<'a>(
    engine: Engine,
    readers: usize,
    inputs: [&'a [u8]; 3],
    front: &'a [u8],
    bytes: usize,
) -> Row<'a> {
    Row {
        engine,
        readers,
        inputs,
        front,
        bytes,
        listing: b"",
    }
}

/// Each engine with its inputs.
fn rows(images: &Images) -> [Row<'_>; 9] {
    let (old, new, other) = (
        images.old.as_slice(),
        images.new.as_slice(),
        images.other.as_slice(),
    );
    let five = FIVE_PLUS_FIVE;
    let mut assembly = plain_row(
        Engine::Assembly,
        1,
        [five, b"", b""],
        &IMAGE_OF_TWO,
        IMAGE_BYTES,
    );
    assembly.listing = LISTING;
    [
        assembly,
        plain_row(Engine::Run, 2, [five, FEED, b""], LINES, 31),
        plain_row(Engine::RunImage, 2, [new, FEED, b""], LINES, 31),
        plain_row(Engine::Debug, 3, [five, FEED, COMMANDS], REPLIES, 79),
        plain_row(Engine::DebugImage, 3, [new, FEED, COMMANDS], REPLIES, 79),
        plain_row(
            Engine::Upgrade,
            1,
            [old, b"", b""],
            &IMAGE_OF_TWO,
            IMAGE_BYTES,
        ),
        plain_row(Engine::Words, 1, [new, b"", b""], WORDS, 22_530),
        plain_row(
            Engine::Compare,
            2,
            [new, other, b""],
            DIFFERENCES,
            DIFFERENCES.len(),
        ),
        plain_row(Engine::Sums, 1, [new, b"", b""], SUMS, 324),
    ]
}

#[test]
fn devices_move_a_byte_a_call(rt: HostRuntime) {
    let images = make_images(rt.alloc());
    for row in &rows(&images) {
        let mut devices = slow(rt.alloc(), &row.inputs, [None; 3]);
        assert!(rt; devices.answer(rt.alloc(), row.engine).is_ok());
        let text = devices.out.as_slice();
        assert!(rt; text.starts_with(row.front));
        assert_eq!(rt; text.len(), row.bytes);
        assert_eq!(rt; devices.listing.as_slice(), row.listing);
    }
}

/// Asserts that a writer in trouble is told, and that a beginning of the text stands then: for the first writer nothing
/// of the listing, for the second one the whole image.
fn assert_beginning(rt: &impl Abort, alloc: Global, row: &Row, whole: &Buffer, trouble: Trouble) {
    let text = whole.as_slice();
    for place in 0..text.len() {
        if is_tried(place, text.len()) {
            let mut devices = broken(alloc, &row.inputs, [Some(place), None], trouble);
            let told = devices.answer(alloc, row.engine);
            assert!(rt; told == Err(WorkshopFault::WriteFailed));
            assert!(rt; devices.out.as_slice() == &text[..place]);
            assert!(rt; devices.listing.as_slice().is_empty());
        }
    }
    for place in 0..row.listing.len() {
        let mut devices = broken(alloc, &row.inputs, [None, Some(place)], trouble);
        let told = devices.answer(alloc, row.engine);
        assert!(rt; told == Err(WorkshopFault::WriteFailed));
        assert!(rt; devices.out.as_slice() == text);
        assert!(rt; devices.listing.as_slice() == &row.listing[..place]);
    }
}

#[test]
fn writers_in_trouble(rt: HostRuntime) {
    let images = make_images(rt.alloc());
    for row in &rows(&images) {
        let mut devices = plain(rt.alloc(), &row.inputs);
        assert!(rt; devices.answer(rt.alloc(), row.engine).is_ok());
        assert_eq!(rt; devices.out.as_slice().len(), row.bytes);
        for trouble in [Trouble::Fails, Trouble::TakesNothing] {
            assert_beginning(&rt, rt.alloc(), row, &devices.out, trouble);
        }
    }
}

/// How many bytes stand once a reader has failed after so many calls: the replies to whole lines of commands, else
/// nothing.
fn replied(reader: usize, calls: usize) -> usize {
    let mut bytes = 0;
    for (read, written) in WHOLE_LINES {
        if reader == 2 && read <= calls {
            bytes = written;
        }
    }
    bytes
}

#[test]
fn readers_that_fail(rt: HostRuntime) {
    let images = make_images(rt.alloc());
    for row in &rows(&images) {
        for reader in 0..row.readers.min(3) {
            let length = row.inputs[reader].len();
            for place in 0..length.saturating_add(1) {
                if is_tried(place, length) {
                    let mut fails_after = [None; 3];
                    fails_after[reader] = Some(place);
                    let mut devices = slow(rt.alloc(), &row.inputs, fails_after);
                    let told = devices.answer(rt.alloc(), row.engine);
                    assert!(rt; told == Err(WorkshopFault::ReadFailed));
                    assert!(rt;
                        row.front.get(..replied(reader, place)) == Some(devices.out.as_slice())
                    );
                    assert!(rt; devices.listing.as_slice().is_empty());
                }
            }
        }
    }
}

#[test]
fn readers_that_end(rt: HostRuntime) {
    let images = make_images(rt.alloc());
    for row in &rows(&images) {
        for reader in 0..row.readers.min(3) {
            let input = row.inputs[reader];
            for place in 0..input.len() {
                if is_tried(place, input.len()) {
                    let mut inputs = row.inputs;
                    inputs[reader] = &input[..place];
                    let mut devices = plain(rt.alloc(), &inputs);
                    let mut slower = slow(rt.alloc(), &inputs, [None; 3]);
                    let told = devices.answer(rt.alloc(), row.engine);
                    assert!(rt; slower.answer(rt.alloc(), row.engine) == told);
                    assert!(rt; slower.out.as_slice() == devices.out.as_slice());
                    assert!(rt; slower.listing.as_slice() == devices.listing.as_slice());
                    if input.len() == IMAGE_BYTES {
                        assert!(rt; told == Err(WorkshopFault::Rope(RopeFault::Short)));
                        assert!(rt; devices.out.as_slice().is_empty());
                    }
                }
            }
        }
    }
}
