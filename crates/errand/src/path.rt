// Where a list of a page is looked for, and what a message about a page names.
ghost use Rattle.std.specs.Prelude.{◌≡◌, ◌≢◌, ◌<◌, ℕ, min, length, slice_index, IfNone, IfSome};
ghost use Rattle.std.proofs.lemmas.List.Edits.{sets};
ghost use Rattle.io.specs.Counts.{IsPrefixLen};
ghost use Rattle.errand.specs.Paths.{behind_slash, from_top, folder_for, beside_of};

use text::join::put;

// Puts the name of a list's file into the room: beside the page, but for a name that begins with '/'. It answers where the
// name ends.
pub fn beside(page: &[u8], name: &[u8], room: &mut [u8]) -> usize
    ensures value { result ≡ min (length (beside_of page.now name.now)) (length room.old) }
    ensures room_after { room.new ≡ sets room.old 0 (beside_of page.now name.now) }
    ensures prefix_len { IsPrefixLen result room.new }
{
    let at = put(folder(page, name), room, 0);
    put(name, room, at)
}

// The page's folder with its '/', as far as the name needs it.
fn folder<'a>(page: &'a [u8], name: &[u8]) -> &'a [u8]
    ensures { result.now ≡ folder_for page.now name.now }
{
    if is_from_top(name) {
        &page[..0]
    } else {
        &page[..behind_slash(page)]
    }
}

fn is_from_top(name: &[u8]) -> bool
    ensures { result ≡ from_top name.now }
{
    !name.is_empty() && name[0] == b'/'
}

// The place behind the last '/'; 0 where there is none.
fn behind_slash(path: &[u8]) -> usize
    ensures { result ≡ behind_slash 0 0 path.now }
{
    match last_slash(path) {
        Some(i) => i + 1,
        None => 0,
    }
}

fn last_slash(path: &[u8]) -> Option<usize>
    ensures none { IfNone result ((k : ℕ) → k < length path.now → slice_index path.now k ≢ 47) }
    ensures within { IfSome result (λ i. i < length path.now × slice_index path.now i ≡ 47) }
    ensures last { IfSome result (λ i. (k : ℕ) → i < k → k < length path.now → slice_index path.now k ≢ 47) }
{
    path.iter().rposition(|byte| *byte == b'/')
}

// Puts PAGE:LINE into the room, as far as it fits, and answers where it ends. By `put` throughout: a page's name may be any bytes, which
// no format writes.
pub fn place(page: &[u8], line: u32, room: &mut [u8]) -> usize
    ensures { IsPrefixLen result room.new }
{
    let mut digits = [0u8; 20];
    let n = io::decimal(u64::from(line), &mut digits);
    let colon = put(page, room, 0);
    let number = put(b":", room, colon);
    put(&digits[..n], room, number)
}

// Puts PLACE: NAME into the room, as far as it fits, and answers where it ends.
pub fn label(place: &[u8], name: &[u8], room: &mut [u8]) -> usize
    ensures { IsPrefixLen result room.new }
{
    let colon = put(place, room, 0);
    let at = put(b": ", room, colon);
    put(name, room, at)
}
