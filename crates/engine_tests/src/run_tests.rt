//! The faults that a run tells, and the line of its end, over devices in trouble.

use crate::sources::FIVE_PLUS_FIVE;
use feed::FeedFault;
use rope::RopeFault;
use std::alloc::AllocError;
use test_devices::{FaultyReader, FaultyWriter, Trouble};
use words::Buffer;
use workshop::{Origin, RunEnd, Summary, Unheard, WorkshopFault, report, run_program, write_end};
use yayul::{Fault, Language};

fn source_fault(line: u32, number: u8) -> WorkshopFault {
    WorkshopFault::Source(Fault { line, number })
}

fn feed_fault(line: u32) -> WorkshopFault {
    WorkshopFault::Feed(FeedFault::BadLine(line))
}

#[test]
fn end_of_a_run_is_told(rt: HostRuntime) {
    let summary = Summary {
        steps: 4,
        cycles: 7,
        outputs: 1,
        z: 0o4004,
    };
    let line = b"END STEPS 4 CYCLES 7 OUTPUTS 1 Z 4004\n";
    let mut told = Buffer::new(rt.alloc());
    assert_eq!(rt; write_end(&summary, &mut told), Ok(()));
    assert_eq!(rt; told.as_slice(), line.as_slice());
    for place in 0..line.len() {
        let mut broken = FaultyWriter::new(rt.alloc(), Some(place), Trouble::TakesNothing);
        assert!(rt; write_end(&summary, &mut broken).is_err());
        assert!(rt; broken.as_slice() == &line[..place]);
    }
}

#[test]
fn source_is_told_before_the_feed_is_read(rt: HostRuntime) {
    let mut out = Buffer::new(rt.alloc());
    let mut source: &[u8] = b" SETLOC 4000\n FROB 100\n";
    let mut feed = FaultyReader::new(b"", Some(0));
    let origin = Origin::Source(Language::Standard);
    assert_eq!(rt;
        run_program(
            rt.alloc(),
            origin,
            &mut source,
            &mut feed,
            RunEnd::Steps,
            4,
            &mut out,
            &mut Unheard
        ),
        Err(source_fault(2, 15))
    );
}

#[test]
fn faults_are_reported(rt: HostRuntime) {
    let rows: [(WorkshopFault, &[u8], u8); 13] = [
        (WorkshopFault::NoMemory, b"agcws: E2\n", 3),
        (WorkshopFault::ReadFailed, b"agcws: E6\n", 3),
        (WorkshopFault::WriteFailed, b"agcws: E7\n", 3),
        (source_fault(1, 10), b"agcws: E10 LINE 1\n", 1),
        (source_fault(9, 14), b"agcws: E14 LINE 9\n", 1),
        (source_fault(65_536, 26), b"agcws: E26 LINE 65536\n", 1),
        (
            feed_fault(4_294_967_295),
            b"agcws: E30 LINE 4294967295\n",
            1,
        ),
        (WorkshopFault::TooLong, b"agcws: E34\n", 1),
        (WorkshopFault::Rope(RopeFault::Short), b"agcws: E3\n", 1),
        (WorkshopFault::Rope(RopeFault::Long), b"agcws: E4\n", 1),
        (WorkshopFault::Rope(RopeFault::LowBit(5)), b"agcws: E5\n", 1),
        (
            WorkshopFault::Rope(RopeFault::BadParity(1)),
            b"agcws: E5\n",
            1,
        ),
        (WorkshopFault::Feed(FeedFault::TooMany), b"agcws: E32\n", 1),
    ];
    for (fault, text, status) in rows {
        let mut errors = Buffer::new(rt.alloc());
        assert_eq!(rt; report(&fault, &mut errors), Ok(status));
        assert_eq!(rt; errors.as_slice(), text);
        for trouble in [Trouble::Fails, Trouble::TakesNothing] {
            for place in 0..text.len() {
                let mut broken = FaultyWriter::new(rt.alloc(), Some(place), trouble);
                let told = report(&fault, &mut broken);
                assert!(rt; told == Err(WorkshopFault::WriteFailed));
                assert!(rt; broken.as_slice() == &text[..place]);
            }
        }
    }
}

#[test]
fn faults_are_told(rt: HostRuntime) -> Result<(), AllocError> {
    let rows: [(u32, u8, &str); 3] = [
        (9, 14, "E14 LINE 9"),
        (65_537, 12, "E12 LINE 65537"),
        (0, 2, "E2"),
    ];
    for (line, number, text) in rows {
        let fault = Fault { line, number };
        assert_eq!(rt; format!(in rt.alloc(); "{fault}")?.as_str(), text);
    }
    Ok(())
}
