ghost use Rattle.std.specs.Prelude.{◌≡◌, ℕ, ◌≤◌, length, nat_lt, slice_index};
ghost use Rattle.bitsets.specs.Sets.{has};

use bitsets::BitSet;

// The queue that picks the lowest place with a rank above 0. The set `positive` has those places.
// The facts are ghost fields: a model's values would be any lists, and the law `ranked` of `Queue` holds of every value.
#[derive(Drop)]
pub struct LowestQueue {
    // Room for 512 places at once, as beginning a queue may not fail for want of memory. Only the first `places` count.
    pub(crate) ranks: [u8; 512],
    pub(crate) places: usize,
    pub(crate) positive: BitSet,
    ghost long: { length ranks ≡ 512 },
    ghost few: { places ≤ 512 },
    ghost low: { (i : ℕ) → slice_index ranks i ≤ 16 },
    ghost rest: { (i : ℕ) → places ≤ i → slice_index ranks i ≡ 0 },
    ghost marked: { (i : ℕ) → has positive i ≡ nat_lt 0 (slice_index ranks i) },
}
