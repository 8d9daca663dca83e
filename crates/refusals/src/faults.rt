ghost use Rattle.std.specs.Prelude.{◌≡◌, Some};
ghost use Rattle.refusals.specs.Faults.{number_of, word_of, line_of, fault_by};

use std::fmt;

// Why a call refuses. The cases have the numbers 1 to 20.
#[derive(Clone, Copy, Debug, PartialEq, Eq)]
pub enum Refusal {
    SizeOutOfRange = 1,
    FileLength = 2,
    RecordOrder = 3,
    RowOutOfRange = 4,
    ZeroWeight = 5,
    FrameLength = 6,
    FrameOrder = 7,
    FeedLength = 8,
    CodeOutOfField = 9,
    WeightOutOfField = 10,
    SurveySize = 11,
    SurveyTooLong = 12,
    OverwritePlace = 13,
    OverwriteCode = 14,
    OverwritesExhausted = 15,
    RowOpen = 16,
    ListLength = 17,
    ListPlace = 18,
    NotSure = 19,
    NotDigit = 20,
}

impl From<Refusal> for u8 {
    ghost from_gives = { λ refusal number. number ≡ number_of refusal };

    fn from(refusal: Refusal) -> u8 {
        refusal as u8
    }
}

// The part that refuses: who opens graph files, the line that brings symbols, the decoder, or the window that
// shows a total.
#[derive(Clone, Copy, Debug, PartialEq, Eq)]
pub enum Layer {
    Shelf,
    Line,
    Decoder,
    Window,
}

impl Layer {
    pub fn word(self) -> &'static str
        ensures { result.now ≡ word_of self }
    {
        match self {
            Layer::Shelf => "shelf",
            Layer::Line => "line",
            Layer::Decoder => "decoder",
            Layer::Window => "window",
        }
    }

    // What this layer answers when it refuses.
    pub fn fault(self, refusal: Refusal, position: usize) -> Fault
        ensures { result ≡ fault_by self refusal position }
    {
        Fault {
            refusal,
            layer: self,
            position,
        }
    }
}

impl fmt::Display for Layer {
    ghost output = { λ layer. Some (word_of layer) };

    fn fmt<W: fmt::Write>(&self, f: &mut fmt::Formatter<W>) -> fmt::Result {
        f.write_str(self.word())
    }
}

// A refusal with its layer and the position of the first offending record, place or index, or 0.
#[derive(Clone, Copy, Debug, PartialEq, Eq)]
pub struct Fault {
    pub refusal: Refusal,
    pub layer: Layer,
    pub position: usize,
}

impl fmt::Display for Fault {
    ghost output = { λ f. Some (line_of f) };

    fn fmt<W: fmt::Write>(&self, f: &mut fmt::Formatter<W>) -> fmt::Result {
        let number = u8::from(self.refusal);
        write!(f, "refused {number} {} {}", self.layer, self.position)
    }
}
