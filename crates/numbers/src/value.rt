// The value of 32 bits and the bits of a value; a word read as signed; a long; a byte.
ghost use Rattle.std.specs.Prelude.{◌≡◌};
ghost use Rattle.numbers.specs.Number.{signed32, signed16, low32, long_of};
ghost use Rattle.numbers.specs.Number as Number;

pub fn to_signed(bits: u32) -> i32
    ensures { result ≡ signed32 bits }
{
    bits.cast_signed()
}

pub fn of_signed(value: i32) -> u32
    ensures { result ≡ low32 value }
{
    value.cast_unsigned()
}

pub fn extend(word: u16) -> u32
    ensures { result ≡ low32 (signed16 word) }
{
    i32::from(word.cast_signed()).cast_unsigned()
}

pub fn long_of(low: u16, high: u16) -> u32
    ensures { result ≡ long_of low high }
{
    u32::from(low) + 0x1_0000 * u32::from(high)
}

// A colour is the low 8 bits.
pub fn low8(bits: u32) -> u8
    ensures { result ≡ Number.low8 bits }
{
    (bits % 256) as u8
}
