// A variable's number, a word's index in the list and a bit address, with the checked way from an address to an index. Three
// structs, since none of them may stand for another.
ghost use Rattle.std.specs.Prelude.{◌≡◌, ◌+◌, ◌^◌, ◌<◌, ◌≤◌, pos, ◌+ℤ◌};
ghost use Rattle.numbers.specs.Number.{signed32};
ghost use Rattle.numbers.specs.Place as Place;
ghost use Rattle.numbers.specs.Place.{index_of, word_of};

use crate::value::to_signed;

// What a word names, a variable or none.
#[derive(Clone, Copy, Debug, PartialEq, Eq)]
pub struct VarNo(pub u16);

#[repr(C)]
#[derive(Clone, Copy, Debug, PartialEq, Eq)]
pub struct WordIndex(pub u32);

#[derive(Clone, Copy, Debug, PartialEq, Eq)]
pub struct BitAddress(pub u32);

// Whether the last of n variables from v on is above 63.
#[tactic(auto, using(crate::proofs::Places::above_is))]
pub fn above(v: VarNo, n: u16) -> bool
    requires { (1 ≤ n) × (n ≤ 64) }
    ensures { result ≡ Place.above v n }
{
    64 - n < v.0
}

impl WordIndex {
    // The index n words further on.
    pub fn past(self, n: u32) -> WordIndex
        requires { self.0 + n < 2 ^ 32 }
        ensures { result.0 ≡ self.0 + n }
    {
        WordIndex(self.0 + n)
    }
}

#[inline(always)]
#[tactic(auto, unfolding(crate::specs::Place::index_of))]
fn index(n: u32, words: u32) -> Option<WordIndex>
    ensures { result ≡ index_of (pos n) words }
{
    if n < words { Some(WordIndex(n)) } else { None }
}

#[inline(always)]
#[tactic(auto, unfolding(crate::specs::Place::word_of))]
pub fn word_at(a: BitAddress, words: u32) -> Option<WordIndex>
    ensures { result ≡ word_of a words }
{
    let bits = a.0;
    if bits % 16 != 0 {
        return None;
    }
    index(bits / 16, words)
}

// A sum below 0, or above 32 bits, is no index of any list.
#[inline(always)]
#[tactic(auto, using(crate::proofs::Places::past_32))]
pub fn word_from(next: WordIndex, offset: u32, words: u32) -> Option<WordIndex>
    ensures { result ≡ index_of (pos next.0 +ℤ signed32 offset) words }
{
    let n = u32::try_from(i64::from(next.0) + i64::from(to_signed(offset))).ok()?;
    index(n, words)
}
