// A number as arguments and pages give it.
ghost use Rattle.std.specs.Prelude.{◌≡◌};
ghost use Rattle.errand.specs.Numbers.{number_in, is_number};

use text::number::{Flaw, at_most, unsigned};

// More than any number may be: what is no number, or a larger one, is read as this.
const BEYOND: u32 = 1_000_001;

pub fn number(item: &[u8]) -> u32
    ensures { result ≡ number_in item.now }
{
    at_most(item, BEYOND).unwrap_or(BEYOND)
}

// Whether a number stands there, however large.
pub fn is_number(item: &[u8]) -> bool
    ensures { result ≡ is_number item.now }
{
    !matches!(unsigned(item), Err(Flaw::Foreign))
}
