// Words of four hexadecimal digits, 0 to 9 and A to F.
ghost use Rattle.std.specs.Prelude.{◌≡◌, if◌then◌else◌};
ghost use Rattle.text.specs.Hexadecimal.{hex_digit, worth, hex_of, last_digit, hex_digits};

// The word that the item's first four bytes spell.
pub fn word_of(item: &[u8]) -> Option<u16>
    ensures { result ≡ hex_of item.now }
{
    let [a, b, c, d, ..] = item else {
        return None;
    };
    Some(worth(*a)? * 4096 + worth(*b)? * 256 + worth(*c)? * 16 + worth(*d)?)
}

// What a digit is worth.
#[tactic(auto, unfolding(crate::specs::Hexadecimal::hex_digit, crate::specs::Number::digit), using(std::proofs::lemmas::Bool::Decides::nat_tests))]
fn worth(b: u8) -> Option<u16>
    ensures { result ≡ (if hex_digit b then Some (worth b) else None) }
{
    match b {
        b'0'..=b'9' => Some(u16::from(b - b'0')),
        b'A'..=b'F' => Some(u16::from(b - b'A') + 10),
        _ => None,
    }
}

// The four digits of a word, the highest first.
pub fn digits_of(word: u16) -> [u8; 4]
    ensures { result ≡ hex_digits word }
{
    [
        last_digit(word / 4096),
        last_digit(word / 256),
        last_digit(word / 16),
        last_digit(word),
    ]
}

#[tactic(auto, unfolding(crate::specs::Hexadecimal::last_digit), using(std::proofs::lemmas::Bool::Decides::nat_tests))]
fn last_digit(n: u16) -> u8
    ensures { result ≡ last_digit n }
{
    let d = (n % 16) as u8;
    if d < 10 { b'0' + d } else { b'A' + (d - 10) }
}
