//! Images over readers in trouble, and what is left unread of them.

ghost use Rattle.std.specs.Prelude.{◌≡◌, IfOk, vec_len};

use rope::{Rope, RopeFault, Version};
use std::alloc::{AllocError, Global};
use test_devices::FaultyReader;
use words::Read;

// So many bytes, each low one this: words of 0 in version 1 where it is 0, in version 2 where it is 1.
fn image_of_zeros(alloc: Global, low: u8, length: usize) -> Result<Vec<u8>, AllocError>
    ensures { IfOk result (λ bytes. vec_len bytes ≡ length) }
{
    let mut bytes = vec![in alloc; 0u8; length]?;
    for (place, byte) in bytes.iter_mut().enumerate() {
        if place % 2 == 1 {
            *byte = low;
        }
    }
    Ok(bytes)
}

#[test]
fn first_fault_of_a_reader_is_told(rt: HostRuntime) {
    let rows = [
        (Version::One, [0, 0, 0, 1, 0, 0], Some(RopeFault::LowBit(3))),
        (Version::One, [0, 1, 0, 1, 0, 0], Some(RopeFault::LowBit(1))),
        (Version::One, [1, 0, 1, 0, 1, 0], None),
        (
            Version::Two,
            [0, 1, 1, 1, 0, 0],
            Some(RopeFault::BadParity(3)),
        ),
        (
            Version::Two,
            [0, 0, 0, 0, 0, 0],
            Some(RopeFault::BadParity(1)),
        ),
        (Version::Two, [1, 0, 0, 1, 7, 0], None),
    ];
    for (version, bytes, wrong) in rows {
        for calls in 0..=6 {
            let mut reader = FaultyReader::new(&bytes, Some(calls));
            let read = Rope::read(rt.alloc(), &mut reader, version);
            let fault = match wrong {
                Some(RopeFault::LowBit(at) | RopeFault::BadParity(at)) if calls > at as usize =>
                    wrong,
                _ => Some(RopeFault::ReadFailed),
            };
            assert!(rt;
                matches!(read, Err(told) if Some(told) == fault),
                "after {calls}"
            );
        }
    }
}

#[test]
fn bytes_after_wrong_ones_are_not_read(rt: HostRuntime) -> Result<(), AllocError> {
    for (version, low, wrong) in [(Version::One, 0, 1), (Version::Two, 1, 0)] {
        for at in [1, 3, 1_025, 2_047, 2_049, 40_961, 73_727] {
            let mut bytes = image_of_zeros(rt.alloc(), low, 73_729)?;
            bytes[at] = wrong;
            let mut reader = bytes.as_slice();
            let read = Rope::read(rt.alloc(), &mut reader, version);
            let fault = match version {
                Version::One => RopeFault::LowBit(at as u32),
                Version::Two => RopeFault::BadParity(at as u32),
            };
            assert!(rt; matches!(read, Err(told) if told == fault), "at {at}");
            assert_eq!(rt; reader, &bytes[at + 1..], "at {at}");
        }
    }
    for (version, bytes) in [
        (Version::One, [0, 0, 0, 1, 7, 9]),
        (Version::Two, [0, 1, 1, 1, 7, 9]),
    ] {
        let mut reader = FaultyReader::new(&bytes, None);
        assert!(rt; Rope::read(rt.alloc(), &mut reader, version).is_err());
        let mut next = [0];
        assert!(rt; matches!(reader.read(&mut next), Ok(1)));
        assert_eq!(rt; next[0], 7);
    }
    Ok(())
}
