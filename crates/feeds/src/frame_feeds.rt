ghost use Rattle.std.specs.Prelude.{◌≡◌, ℕ, ◌<◌, ◌≤◌, false, is_some, IfOk};
ghost use Rattle.std.specs.Result.{result_err};
ghost use Rattle.feeds.specs.Frames.{records, place_at, frame_fault, frame_code, frame_codes, FrameGranted, FirstOffence, RecordCodes, OtherCodes};

use crate::records::{Record, check_frame, records};
use crate::traits::Feed;
use refusals::{Fault, Place};

// A feed of the codes that a frame lists, checked: it has no fault. It borrows the frame.
#[derive(Drop)]
pub struct FrameFeed<'a> {
    frame: &'a [u8],
    places: usize,
    ghost sound: { is_some (frame_fault frame.now places) ≡ false },
}

impl<'a> FrameFeed<'a> {
    // Checks a frame against the number of places that it is opened with.
    pub fn check(frame: &'a [u8], places: usize) -> Result<FrameFeed<'a>, Fault>
        ensures fault { result_err result ≡ frame_fault frame.now places }
        ensures frame { IfOk result (λ f. f.frame.now ≡ frame.now) }
        ensures places { IfOk result (λ f. f.places ≡ places) }
    {
        check_frame(frame, places)?;
        Ok(FrameFeed { frame, places })
    }

    // Where a record with `place` would stand, found by halving: the records before have lower places, and those from
    // there on have not.
    // By hand, since `partition_point` may take one step more.
    fn lower_bound(&self, place: u16) -> usize
        ensures within { result ≤ records self.now.frame.now }
        ensures before { (k : ℕ) → k < result → place_at self.now.frame.now k < place }
        ensures after { (k : ℕ) → result ≤ k → k < records self.now.frame.now → place ≤ place_at self.now.frame.now k }
    {
        let records = records(self.frame);
        let mut low = 0;
        let mut high = records.len();
        while low < high {
            let middle = low + (high - low) / 2;
            if Record::from(records[middle]).place < place {
                low = middle + 1;
            } else {
                high = middle;
            }
        }
        low
    }

    // The code of the record that has `place`, or 0.
    fn code_of(&self, place: u16) -> u16
        ensures { result ≡ frame_code self.now.frame.now place }
    {
        let k = self.lower_bound(place);
        match records(self.frame).get(k).copied().map(Record::from) {
            Some(record) if record.place == place => record.code,
            _ => 0,
        }
    }
}

#[tactic(auto, using(crate::proofs::Codes::length_codes, crate::proofs::Codes::slice_get_codes))]
impl Feed for FrameFeed<'_> {
    ghost codes = { λ f. frame_codes f.frame.now f.places };

    fn len(&self) -> usize {
        self.places
    }

    fn code(&self, place: Place) -> Option<u16> {
        if usize::from(place.0) < self.places {
            Some(self.code_of(place.0))
        } else {
            None
        }
    }
}

// The laws below are cited in `proofs/`: the tactics do not find all of them by name.
// A frame is granted exactly when it is one for that number of places; a refusal by 7 names the first record that offends;
// and a granted frame brings each place the code of its record, or 0.
pub fn frames_bring_their_records()
    ensures granted { FrameGranted }
    ensures offence { FirstOffence }
    ensures listed { RecordCodes }
    ensures others { OtherCodes }
{}
