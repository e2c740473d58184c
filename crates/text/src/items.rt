// The items of a line, which single blanks part.
ghost use Rattle.std.specs.Prelude.{◌≡◌, ◌+◌, [], length, drop, slice_index_or};
ghost use Rattle.text.specs.Items.{place_of, items, place_in};

// The index of the first `b` at or behind `from`; the length where there is none.
pub fn find(s: &[u8], from: usize, b: u8) -> usize
    ensures { result ≡ from + place_of b (drop from s.now) }
{
    let rest = &s[from.min(s.len())..];
    from + rest.iter().take_while(|x| **x != b).count()
}

// How many items the line has.
pub fn count(line: &[u8]) -> usize
    ensures { result ≡ length (items line.now) }
{
    line.split(|b| *b == b' ').count()
}

// Item `k`, counted from 0; empty where there is none.
pub fn item(line: &[u8], k: usize) -> &[u8]
    ensures { result.now ≡ slice_index_or (items line.now) k [] }
{
    line.split(|b| *b == b' ').nth(k).unwrap_or(&[])
}

// Which item of `names` the name is, counted from 0; for any other name how many there are.
pub fn place_in(names: &[u8], name: &[u8]) -> usize
    ensures { result ≡ place_in name.now (items names.now) }
{
    names
        .split(|b| *b == b' ')
        .position(|item| name == item)
        .unwrap_or(count(names))
}
