ghost use Rattle.std.specs.Prelude.{◌≡◌, ◌≤◌, length, count_ones, ℕ, ◌+◌, ◌-◌, ◌*◌, ◌/◌, ◌%◌, ◌<◌, false, not, ◌&&◌, ◌||◌, ◌==◌, nat_lt};
ghost use Rattle.std.specs.List.{sum_by};
ghost use Rattle.firsts.specs.First.{first_where};
ghost use Rattle.bitsets.specs.Bits.{count};
ghost use Rattle.bitsets.specs.Sets.{has, MembersBelow512, SameMembersSameSet};

use crate::sets::BitSet;
use std::array;

impl BitSet {
    pub fn empty() -> BitSet
        ensures { (k : ℕ) → has result k ≡ false }
    {
        BitSet { words: [0; 8] }
    }

    // A number of 512 or more changes nothing.
    pub fn insert(&mut self, n: usize)
        ensures { (k : ℕ) → has self.new k ≡ (has self.old k || (k == n && nat_lt n 512)) }
    {
        if n < 512 {
            self.words[n / 64] |= 1 << (n % 64);
        }
    }

    #[tactic(auto, using(crate::proofs::Laws::without_bit))]
    pub fn remove(&mut self, n: usize)
        ensures { (k : ℕ) → has self.new k ≡ (has self.old k && not (k == n)) }
    {
        if n < 512 {
            self.words[n / 64] &= !(1 << (n % 64));
        }
    }

    pub fn contains(&self, n: usize) -> bool
        ensures { result ≡ has self.now n }
    {
        n < 512 && (self.words[n / 64] >> (n % 64)) & 1 == 1
    }

    // The numbers that are members of one set or the other.
    pub fn join(self, other: BitSet) -> BitSet
        ensures { (k : ℕ) → has result k ≡ (has self k || has other k) }
    {
        BitSet {
            words: array::from_fn(|i| self.words[i] | other.words[i]),
        }
    }

    // The number of members.
    #[tactic(auto, using(crate::proofs::Laws::ones_are_members))]
    pub fn len(&self) -> usize
        ensures { result ≡ count 512 (has self.now) }
    {
        ones(&self.words)
    }

    // The first member at or after `n`.
    #[tactic(auto, using(crate::proofs::Searches::first_near_is, crate::proofs::Searches::first_later_is))]
    pub fn first_from(&self, n: usize) -> Option<usize>
        ensures { result ≡ first_where (has self.now) n (512 - n) }
    {
        match self.first_in_word(n) {
            Some(first) => Some(first),
            None => self.first_in_words(n / 64 + 1),
        }
    }

    // The first member of the words from `word` on.
    fn first_in_words(&self, word: usize) -> Option<usize>
        ensures { result ≡ first_where (has self.now) (64 * word) (512 - 64 * word) }
    {
        (word..8).find_map(|i| self.first_in_word(64 * i))
    }

    // The first member at or after `n` among those of the same word.
    fn first_in_word(&self, n: usize) -> Option<usize>
        ensures { result ≡ first_where (has self.now) n (64 - n % 64) }
    {
        let rest = self.words.get(n / 64)? >> (n % 64);
        if rest == 0 {
            None
        } else {
            Some(n + rest.trailing_zeros() as usize)
        }
    }
}

// How many bits of these words are set.
fn ones(words: &[u64]) -> usize
    requires { length words.now ≤ 8 }
    ensures { result ≡ sum_by count_ones words.now }
{
    words.iter().map(|word| word.count_ones() as usize).sum()
}

// A bit set has no members but numbers below 512, and its members fix it.
#[tactic(auto, using(crate::proofs::Laws::members_below, crate::proofs::Laws::same_members))]
pub fn bit_sets_are_their_members()
    ensures below { MembersBelow512 }
    ensures fixed { SameMembersSameSet }
{}
