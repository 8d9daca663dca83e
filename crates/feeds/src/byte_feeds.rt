ghost use Rattle.std.specs.Prelude.{◌≡◌};

use crate::traits::Feed;
use refusals::Place;

// A feed of one byte a place. It borrows the bytes.
#[derive(Drop)]
pub struct ByteFeed<'a> {
    bytes: &'a [u8],
}

impl<'a> ByteFeed<'a> {
    pub fn new(bytes: &'a [u8]) -> ByteFeed<'a>
        ensures { result.bytes.now ≡ bytes.now }
    {
        ByteFeed { bytes }
    }
}

impl Feed for ByteFeed<'_> {
    ghost codes = { λ f. f.bytes.now };

    fn len(&self) -> usize {
        self.bytes.len()
    }

    fn code(&self, place: Place) -> Option<u16> {
        self.bytes.get(usize::from(place.0)).copied().map(u16::from)
    }
}
