// The words for a number that a call answers: crates/wording/specs/Wording.antt has the table.
#![tactic(auto)]

ghost use Rattle.std.specs.Prelude.{◌≡◌, ◌<◌, length};
ghost use Rattle.wording.specs.Wording.{text_of, words_of};

// The words for a number, and a 0 behind them: as C wants a text.
#[repr(C)]
#[derive(Clone, Copy)]
pub struct Words {
    pub length: u8,
    pub text: [u8; 127],
}

pub fn words_for(number: u8) -> Words
    ensures { result ≡ words_of (text_of number) }
{
    padded(text_of(number))
}

fn text_of(number: u8) -> &'static [u8]
    ensures { result.now ≡ text_of number }
{
    match number {
        0 => b"the list has ended",
        1 => b"the budget is used up, the list still runs",
        10 => b"the width or the height is not 1 to 2,048",
        11 => b"the screen's bytes are not width x height",
        12 => b"the pane is empty or not within the screen, or another field is out of its range",
        13 => b"the list is above 65,536 words",
        14 => b"the budget is above 1,000,000",
        20 => b"the counter is at or past the list's end",
        21 => b"no opcode",
        22 => b"the list ends inside the opcode",
        23 => b"a variable above 63",
        24 => b"a mode, type, condition or count that is not allowed",
        25 =>
            b"a coordinate or offset not -32,768 to 32,767, a radius not 0 to 32,767, a length above 65,536, a dot outside the screen",
        26 => b"the divisor is zero",
        27 => b"a target that is not allowed",
        28 => b"a call with 16 returns stacked, or a repeat with eight open",
        29 => b"a return with none stacked, or the end of a repeat with none open",
        30 => b"an EODL inside a repeat",
        31 => b"more than 1,000,000 steps are needed",
        32 => b"the report has no room for every change",
        _ => b"no number of the box's",
    }
}

// The words, and zeros behind them.
pub fn padded(words: &[u8]) -> Words
    requires { length words.now < 127 }
    ensures { result ≡ words_of words.now }
{
    let mut text = [0; 127];
    text[..words.len()].copy_from_slice(words);
    Words {
        length: words.len() as u8,
        text,
    }
}
