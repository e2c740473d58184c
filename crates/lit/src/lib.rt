// How many dots of a dashed line light up, told by its length and its pattern without walking it.
#![tactic(auto)]

ghost use Rattle.std.specs.Prelude.{◌≡◌, cond, ltb, Option, None, Some};
ghost use Rattle.lit.specs.Lit.{lit_among, lit_of};

// 0 and the count, or 25 and none.
#[repr(C)]
#[derive(Clone, Copy)]
pub struct LitDots {
    pub number: u8,
    pub count: u32,
}

// The longest line, in dots.
const LONGEST: u32 = 65536;

// A run: as many dots as the pattern has bits.
const RUN: u32 = 32;

// The count, where the line is no longer than the longest: whole runs times the ones in the pattern, plus the ones among the leftover
// low bits.
fn counted(length: u32, pattern: u32) -> Option<u32>
    ensures { result ≡ cond (ltb 65536 length) None (Some (lit_among length pattern)) }
{
    if LONGEST < length {
        return None;
    }
    let whole = length / RUN * pattern.count_ones();
    let mask = (1 << (length % RUN)) - 1;
    let leftover = (pattern & mask).count_ones();
    Some(whole + leftover)
}

// How many dots of a line of that length the pattern lights.
pub fn lit(length: u32, pattern: u32) -> LitDots
    ensures { result ≡ lit_of length pattern }
{
    match counted(length, pattern) {
        Some(count) => LitDots { number: 0, count },
        None => LitDots {
            number: 25,
            count: 0,
        },
    }
}
