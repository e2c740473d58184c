// Decimal numbers, written: no zero leads but that of 0 itself.
ghost use Rattle.std.specs.Prelude.{◌≡◌, ◌+◌, ◌≤◌, length};
ghost use Rattle.text.specs.Decimal.{decimal};
ghost use Rattle.text.specs.Puts.{Puts};

// How many digits.
pub fn width(n: u32) -> usize
    ensures { result ≡ length (decimal n) }
{
    if n < 10 {
        return 1;
    }
    width(n / 10) + 1
}

// Puts the digits into the room from `at` on, and answers where they end.
pub fn put_decimal(n: u32, room: &mut [u8], at: usize) -> usize
    requires { at + length (decimal n) ≤ length room.old }
    ensures { Puts (decimal n) room.old at room.new result }
{
    if n < 10 {
        room[at] = b'0' + (n as u8);
        return at + 1;
    }
    let end = put_decimal(n / 10, room, at);
    room[end] = b'0' + ((n % 10) as u8);
    end + 1
}
