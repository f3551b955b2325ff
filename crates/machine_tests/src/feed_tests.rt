//! Feeds: inputs that no run reaches, and readers in trouble.

use feed::{Counter, FeedFault, Input, MOST_SERIES, Sequence, read};
use test_devices::FaultyReader;

const PINC: Input = Input::Count(Counter::Time1, Sequence::Pinc);

#[test]
fn largest_series(rt: HostRuntime) -> Result<(), FeedFault> {
    let mut reader: &[u8] = b"EVERY 999999999999999 999999999 1 999999999 TIME1 PINC";
    let mut feed = read(rt.alloc(), &mut reader)?;
    let mut counts = [0; MOST_SERIES];
    assert!(rt; feed.due(0, &counts, 999_999_999_999_998).is_none());
    assert_eq!(rt;
        feed.due(0, &counts, 999_999_999_999_999),
        Some((PINC, Some(0)))
    );
    counts[0] = 999_999_998;
    let last: u64 = 1_000_999_997_000_000_001;
    assert!(rt; feed.due(999_999_998, &counts, last - 1).is_none());
    assert_eq!(rt; feed.due(999_999_998, &counts, last), Some((PINC, Some(0))));
    counts[0] = 999_999_999;
    assert!(rt; feed.due(999_999_999, &counts, u64::MAX).is_none());
    Ok(())
}

#[test]
fn readers_in_trouble(rt: HostRuntime) {
    let text = b"X\n";
    for place in 0..3 {
        let mut reader = FaultyReader::new(text, Some(place));
        assert_eq!(rt;
            read(rt.alloc(), &mut reader).err(),
            Some(FeedFault::ReadFailed)
        );
    }
    let mut reader = FaultyReader::new(text, Some(3));
    assert_eq!(rt;
        read(rt.alloc(), &mut reader).err(),
        Some(FeedFault::BadLine(1))
    );
}
