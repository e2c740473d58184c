// Reads a list: hexadecimal words, each with an optional repeat.
ghost use Rattle.std.specs.Prelude.{◌≡◌, ◌≤◌, length, IfOk};
ghost use Rattle.desk.specs.Lists.{times_of, loaded, put as puts, read_item, listed};

use crate::fault::Fault;
use text::hexadecimal::word_of;
use text::items::{count, item};
use text::number::unsigned;

// The list's room: one word more than a list may have.
pub const WORDS: usize = 65537;

// The items of a line behind its first item, 'list': how many words of the room are the list.
pub fn read_list(line: &[u8], room: &mut [u16]) -> Result<usize, Fault>
    ensures room_after { loaded result room.new ≡ listed line.now room.old }
    ensures words_in_bounds { IfOk result (λ words. words ≤ length room.old) }
{
    let mut words = 0;
    for k in 1..count(line) {
        words = read_item(item(line, k), room, words)?;
    }
    Ok(words)
}

// Puts the item's word behind the first `words` words, as often as the item says. A room and how many words of it are the list, since
// memory is lent and fixed.
fn read_item(item: &[u8], room: &mut [u16], words: usize) -> Result<usize, Fault>
    requires { words ≤ length room.old }
    ensures room_after { loaded result room.new ≡ read_item item.now room.old words }
    ensures words_in_bounds { IfOk result (λ words. words ≤ length room.old) }
{
    let word = word_of(item).ok_or(Fault::NoWord)?;
    let times = times_of(item)?;
    put(room, words, times, word)
}

fn put(room: &mut [u16], words: usize, times: usize, word: u16) -> Result<usize, Fault>
    requires { words ≤ length room.old }
    ensures room_after { loaded result room.new ≡ puts times word room.old words }
    ensures words_in_bounds { IfOk result (λ words. words ≤ length room.old) }
{
    if room.len() - words < times {
        return Err(Fault::TooMany);
    }
    let end = words + times;
    room[words..end].fill(word);
    Ok(end)
}

// How often the item has its word.
fn times_of(item: &[u8]) -> Result<usize, Fault>
    ensures { result ≡ times_of item.now }
{
    if item.len() < 5 {
        return Ok(1);
    }
    if item[4] != b'*' {
        return Err(Fault::NoWord);
    }
    let times = unsigned(&item[5..])?;
    Ok(times as usize)
}
