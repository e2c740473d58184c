// Reads a file, and the words of a list.
ghost use Rattle.std.specs.Prelude.{◌≡◌, min, length};
ghost use Rattle.std.proofs.lemmas.List.Edits.{sets};
ghost use Rattle.errand.specs.Words.{word as word_of, words_in};

use crate::say::tell;
use outside::fail::fail;
use outside::file::read_file;

// One byte more than 65,536 words: a file that fills its room is too long.
const LIST: usize = 131073;

// The file's bytes, at the start of the room; or a line has told why there are none. `told` is what a message calls the file, and
// `long` what it says of one that fills its room.
fn load<'a>(
    rt: HostRuntime,
    path: &[u8],
    told: &[u8],
    room: &'a mut [u8],
    long: &str,
) -> Option<&'a [u8]> {
    let read = read_file(&rt, path, room);
    let end = read.map_err(|error| fail(&rt.stderr(), told, error)).ok()?;
    if room.len() <= end {
        tell(&rt.stderr(), told, long);
        return None;
    }
    Some(&room[..end])
}

// The page's text; or a line has told why there is none.
pub fn load_page<'a>(rt: HostRuntime, path: &[u8], room: &'a mut [u8]) -> Option<&'a [u8]> {
    load(rt, path, path, room, "a page of more than 4,095 bytes")
}

// The list's words, at the start of the room, and the rest of the room; or a line has told why there are none.
pub fn load_list<'a>(
    rt: HostRuntime,
    path: &[u8],
    told: &[u8],
    words: &'a mut [u16],
) -> Option<(&'a mut [u16], &'a mut [u16])> {
    let mut room = [0u8; LIST];
    let bytes = load_words(rt, path, told, &mut room)?;
    let end = put_words(bytes, words);
    Some(words.split_at_mut(end))
}

fn load_words<'a>(
    rt: HostRuntime,
    path: &[u8],
    told: &[u8],
    room: &'a mut [u8; LIST],
) -> Option<&'a [u8]> {
    let bytes = load(rt, path, told, room, "a list of more than 65,536 words")?;
    if bytes.len() % 2 == 1 {
        tell(
            &rt.stderr(),
            told,
            "an odd number of bytes: a list is words of two bytes, low byte first",
        );
        return None;
    }
    Some(bytes)
}

// Puts the words that the bytes spell at the start of the room, as far as they fit, and answers where they end.
// By their indices, as nothing is known of what is written through an adapter of `iter_mut`.
fn put_words(bytes: &[u8], words: &mut [u16]) -> usize
    ensures value { result ≡ min (length (words_in bytes.now)) (length words.old) }
    ensures words_after { words.new ≡ sets words.old 0 (words_in bytes.now) }
{
    let count = words.len().min(bytes.len() / 2);
    for i in 0..count {
        words[i] = word(bytes[2 * i], bytes[2 * i + 1]);
    }
    count
}

fn word(low: u8, high: u8) -> u16
    ensures { result ≡ word_of low high }
{
    u16::from_le_bytes([low, high])
}
