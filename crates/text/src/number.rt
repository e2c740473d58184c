// Decimal numbers, read; zeros may lead where nothing else is said.
ghost use Rattle.std.specs.Prelude.{◌≡◌, [], ◌∷◌};
ghost use Rattle.text.specs.Number.{reading, decimal_of, unpadded_of, at_most, signed_of};

// Why an item spells no number: no digits, or another byte among them; a number that is too large.
#[derive(Clone, Copy, PartialEq, Eq, Debug)]
pub enum Flaw {
    Foreign,
    Large,
}

const MOST: u64 = 0xffff_ffff;

const HALF: u32 = 0x8000_0000;

// 0 to 4,294,967,295.
pub fn unsigned(item: &[u8]) -> Result<u32, Flaw>
    ensures { result ≡ decimal_of item.now }
{
    if item.is_empty() {
        return Err(Flaw::Foreign);
    }
    let mut n = 0;
    for b in item {
        n = with_digit(n, *b)?;
    }
    Ok(n)
}

// The same, but that no zero leads: a 0 stands alone.
pub fn unpadded(item: &[u8]) -> Result<u32, Flaw>
    ensures { result ≡ unpadded_of item.now }
{
    if 1 < item.len() && item.starts_with(b"0") {
        return Err(Flaw::Foreign);
    }
    unsigned(item)
}

// A number and one digit more.
fn with_digit(n: u32, b: u8) -> Result<u32, Flaw>
    ensures { result ≡ reading n (b ∷ []) }
{
    if !b.is_ascii_digit() {
        return Err(Flaw::Foreign);
    }
    let more = u64::from(n) * 10 + u64::from(b - b'0');
    if MOST < more {
        return Err(Flaw::Large);
    }
    Ok(more as u32)
}

// 0 to `most`.
pub fn at_most(item: &[u8], most: u32) -> Result<u32, Flaw>
    ensures { result ≡ at_most most (decimal_of item.now) }
{
    let n = unsigned(item)?;
    if most < n {
        return Err(Flaw::Large);
    }
    Ok(n)
}

// -2,147,483,648 to 2,147,483,647, as 32 bits in two's complement.
pub fn signed(item: &[u8]) -> Result<u32, Flaw>
    ensures { result ≡ signed_of item.now }
{
    match item.strip_prefix(b"-") {
        Some(digits) => Ok(at_most(digits, HALF)?.wrapping_neg()),
        None => at_most(item, HALF - 1),
    }
}
