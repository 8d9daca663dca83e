use super::*;
use refusals::{Fault, Layer, Place, Refusal};
use std::test::Fail;

// Place 1 has the code 7, place 2 the code 513, place 5 the code 65535.
const FRAME: [u8; 12] = *b"\x00\x01\x00\x07\x00\x02\x02\x01\x00\x05\xff\xff";

fn line(refusal: Refusal, position: usize) -> Option<Fault> {
    Some(Fault {
        refusal,
        layer: Layer::Line,
        position,
    })
}

fn frame_fault(frame: &[u8], places: usize) -> Option<Fault> {
    FrameFeed::check(frame, places).err()
}

#[test]
fn bytes_are_codes(rt: HostRuntime) {
    let feed = ByteFeed::new(b"\x00\x07\xff");
    assert_eq!(rt; feed.len(), 3);
    for (place, code) in [
        (0u16, Some(0u16)),
        (1, Some(7)),
        (2, Some(255)),
        (3, None),
        (65535, None),
    ] {
        assert_eq!(rt; feed.code(Place(place)), code);
    }
}

#[test]
fn a_frame_with_holes(rt: HostRuntime) -> Result<(), Fail> {
    let feed = FrameFeed::check(&FRAME, 6)?;
    assert_eq!(rt; feed.len(), 6);
    for (place, code) in [
        (0u16, Some(0u16)),
        (1, Some(7)),
        (2, Some(513)),
        (3, Some(0)),
        (4, Some(0)),
        (5, Some(65535)),
        (6, None),
        (256, None),
    ] {
        assert_eq!(rt; feed.code(Place(place)), code);
    }
    Ok(())
}

// One byte of a frame replaced, and the first record that then offends.
#[test]
fn damaged_frames(rt: HostRuntime) {
    for (at, byte, position) in [
        (1usize, 6u8, 0usize),
        (0, 1, 0),
        (5, 1, 1),
        (5, 9, 1),
        (9, 6, 2),
        (9, 2, 2),
        (9, 1, 2),
    ] {
        let mut frame = FRAME;
        frame[at] = byte;
        assert_eq!(rt; frame_fault(&frame, 6), line(Refusal::FrameOrder, position));
    }
    assert_eq!(rt; frame_fault(&FRAME, 5), line(Refusal::FrameOrder, 2));
    assert_eq!(rt; frame_fault(&FRAME, 6), None);
}

#[test]
fn sizes_and_lengths(rt: HostRuntime) -> Result<(), Fail> {
    for places in [0usize, 513, usize::MAX] {
        assert_eq!(rt;
            frame_fault(&FRAME[0..11], places),
            line(Refusal::SizeOutOfRange, 0)
        );
    }
    for end in [1usize, 2, 11] {
        assert_eq!(rt;
            frame_fault(&FRAME[0..end], 1),
            line(Refusal::FrameLength, 0)
        );
    }
    let feed = FrameFeed::check(b"", 512)?;
    assert_eq!(rt; feed.len(), 512);
    assert_eq!(rt; feed.code(Place(511)), Some(0));
    assert_eq!(rt; feed.code(Place(512)), None);
    Ok(())
}
