// The arithmetic of variables, each given as its 32 bits.
ghost use Rattle.std.specs.Prelude.{◌≡◌, ◌==◌, bit_and, bit_or, int_lt};
ghost use Rattle.numbers.specs.Number.{
  signed32,
  sum32,
  difference32,
  product32,
  quotient32,
  remainder32,
  unless_zero,
};

use crate::value::{of_signed, to_signed};

#[tactic(auto, using(crate::proofs::Bits::sum_bits))]
pub fn add(a: u32, b: u32) -> u32
    ensures { result ≡ sum32 a b }
{
    a.wrapping_add(b)
}

#[tactic(auto, using(crate::proofs::Bits::difference_bits))]
pub fn sub(a: u32, b: u32) -> u32
    ensures { result ≡ difference32 a b }
{
    a.wrapping_sub(b)
}

pub fn inc(a: u32) -> u32
    ensures { result ≡ sum32 a 1 }
{
    add(a, 1)
}

pub fn dec(a: u32) -> u32
    ensures { result ≡ difference32 a 1 }
{
    sub(a, 1)
}

// A helper of our own, which MLTV is to have: the exact product, cut to its low 32 bits.
#[tactic(auto, using(crate::proofs::Bits::product_bits))]
pub fn mul(a: u32, b: u32) -> u32
    ensures { result ≡ product32 a b }
{
    (u64::from(a) * u64::from(b) % 0x1_0000_0000) as u32
}

pub fn and(a: u32, b: u32) -> u32
    ensures { result ≡ bit_and a b }
{
    a & b
}

pub fn or(a: u32, b: u32) -> u32
    ensures { result ≡ bit_or a b }
{
    a | b
}

// The least number by -1 wraps to itself.
#[inline(always)]
pub fn quotient(a: u32, b: u32) -> Option<u32>
    ensures { result ≡ unless_zero b (quotient32 a b) }
{
    if b == 0 {
        return None;
    }
    Some(of_signed(to_signed(a).wrapping_div(to_signed(b))))
}

// By -1 nothing is left, of the least number too.
#[inline(always)]
pub fn remainder(a: u32, b: u32) -> Option<u32>
    ensures { result ≡ unless_zero b (remainder32 a b) }
{
    if b == 0 {
        return None;
    }
    Some(of_signed(to_signed(a).wrapping_rem(to_signed(b))))
}

pub fn less(a: u32, b: u32) -> bool
    ensures { result ≡ int_lt (signed32 a) (signed32 b) }
{
    to_signed(a) < to_signed(b)
}

pub fn equal(a: u32, b: u32) -> bool
    ensures { result ≡ (a == b) }
{
    a == b
}
