// Binary PPM: three bytes a dot.
ghost use Rattle.std.specs.Prelude.{◌≡◌, ◌/◌, length, take};
ghost use Rattle.std.proofs.lemmas.List.Edits.{sets};
ghost use Rattle.picture.specs.Colours.{painted};
ghost use Rattle.io.specs.Counts.{IsPrefixLen};

use crate::palette::colour_of;

// Puts three bytes for each dot into the room, as many as fit, and answers where they end: a count, which cannot fail.
pub fn put_colours(dots: &[u8], room: &mut [u8]) -> usize
    ensures value { result ≡ length (painted (take (length room.old / 3) dots.now)) }
    ensures room_after { room.new ≡ sets room.old 0 (painted (take (length room.old / 3) dots.now)) }
    ensures prefix_len { IsPrefixLen result room.new }
{
    let fitting = &dots[..(room.len() / 3).min(dots.len())];
    let mut at = 0;
    for dot in fitting {
        at = colour_of(*dot).put(room, at);
    }
    at
}
