// Writes a list to standard output: two bytes a word, the low one first.
ghost use Rattle.std.specs.Prelude.{◌≡◌, ◌+◌, ◌/◌, ◌≤◌, [], ◌∷◌, length, take};
ghost use Rattle.std.proofs.lemmas.List.Edits.{sets};
ghost use Rattle.io.specs.Counts.{IsPrefixLen};
ghost use Rattle.text.specs.Puts.{Puts};
ghost use Rattle.output.specs.Bytes.{low_of, high_of, bytes_of};

use std::io::Error;

// Words in a part.
const PART: usize = 32768;

// Ok where all of it could be written, and else why not.
pub fn write_list(out: &impl Print, list: &[u16]) -> Result<(), Error> {
    for part in list.chunks(PART) {
        write_part(out, part)?;
    }
    Ok(())
}

fn write_part(out: &impl Print, words: &[u16]) -> Result<(), Error> {
    let mut room = io::large_buffer();
    let n = put_bytes(words, &mut room);
    out.write_all(&room[..n])
}

// Puts two bytes for each word into the room, as many as fit, and answers where they end.
fn put_bytes(words: &[u16], room: &mut [u8]) -> usize
    ensures value { result ≡ length (bytes_of (take (length room.old / 2) words.now)) }
    ensures room_after { room.new ≡ sets room.old 0 (bytes_of (take (length room.old / 2) words.now)) }
    ensures prefix_len { IsPrefixLen result room.new }
{
    let fitting = &words[..(room.len() / 2).min(words.len())];
    let mut at = 0;
    for word in fitting {
        at = put_word(*word, room, at);
    }
    at
}

// The low byte and the high one, each by a store of its own.
fn put_word(word: u16, room: &mut [u8], at: usize) -> usize
    requires { at + 2 ≤ length room.old }
    ensures { Puts (low_of word ∷ high_of word ∷ []) room.old at room.new result }
{
    let [low, high] = word.to_le_bytes();
    room[at] = low;
    room[at + 1] = high;
    at + 2
}
