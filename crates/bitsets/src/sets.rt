ghost use Rattle.std.specs.Prelude.{◌≡◌, length};
ghost use Rattle.bitsets.specs.Bits.{Words};

// A set of numbers below 512: number k is bit k mod 64 of word k div 64.
// The facts are ghost fields: a model's values would be any lists, and `bit_sets_are_their_members` holds of every value.
#[derive(Clone, Copy)]
pub struct BitSet {
    // Eight words and no more: there are at most 512 places and 512 rows, and a set is copied by value.
    pub(crate) words: [u64; 8],
    ghost eight: { length words ≡ 8 },
    ghost narrow: { Words words },
}
