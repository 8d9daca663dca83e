ghost use Rattle.std.specs.Prelude.{◌≡◌, ℕ, ◌<◌, List, length, slice_index_or};
ghost use Rattle.std.specs.Result.{result_err};
ghost use Rattle.refusals.specs.Numbers.{u16_at};
ghost use Rattle.feeds.specs.Frames.{records, place_at, code_at, first_offence, frame_fault};

use refusals::{Fault, Layer, Refusal};

// A record of a frame: a place and its code.
#[derive(Clone, Copy)]
pub(crate) struct Record {
    pub(crate) place: u16,
    pub(crate) code: u16,
}

impl From<[u8; 4]> for Record {
    ghost from_gives = { λ bytes r. (r.place ≡ u16_at bytes 0) × (r.code ≡ u16_at bytes 2) };

    fn from([place_high, place_low, code_high, code_low]: [u8; 4]) -> Record {
        Record {
            place: u16::from_be_bytes([place_high, place_low]),
            code: u16::from_be_bytes([code_high, code_low]),
        }
    }
}

// The records of a frame, each of four bytes. Fewer bytes behind the last are in none.
pub(crate) fn records(frame: &[u8]) -> &[[u8; 4]]
    ensures count { length result.now ≡ records frame.now }
    ensures places { (k : ℕ) (d : List ℕ) → k < records frame.now → u16_at (slice_index_or result.now k d) 0 ≡ place_at frame.now k }
    ensures codes { (k : ℕ) (d : List ℕ) → k < records frame.now → u16_at (slice_index_or result.now k d) 2 ≡ code_at frame.now k }
{
    frame.as_chunks::<4>().0
}

// The first record whose place is not below `places`, or not above that of the record before.
fn first_offence(frame: &[u8], places: usize) -> Option<usize>
    ensures { result ≡ first_offence frame.now places }
{
    let records = records(frame);
    (0..records.len()).find(|&k| {
        let place = Record::from(records[k]).place;
        let ascends = k == 0 || Record::from(records[k - 1]).place < place;
        usize::from(place) >= places || !ascends
    })
}

// Refuses a frame that is none for this number of places.
pub(crate) fn check_frame(frame: &[u8], places: usize) -> Result<(), Fault>
    ensures { result_err result ≡ frame_fault frame.now places }
{
    if !(1..=512).contains(&places) {
        return Err(Layer::Line.fault(Refusal::SizeOutOfRange, 0));
    }
    if frame.len() % 4 != 0 {
        return Err(Layer::Line.fault(Refusal::FrameLength, 0));
    }
    if let Some(k) = first_offence(frame, places) {
        return Err(Layer::Line.fault(Refusal::FrameOrder, k));
    }
    Ok(())
}
