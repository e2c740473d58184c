// The colour of a byte: 004's default palettes, the one of 16 colours for 0 to 15 and the one of 256 above.
ghost use Rattle.std.specs.Prelude.{◌≡◌, ◌+◌, ◌≤◌, [], ◌∷◌, length};
ghost use Rattle.text.specs.Puts.{Puts};
ghost use Rattle.picture.specs.Colours.{rgb as rgb_of, of256, colour_of};

#[derive(Clone, Copy)]
pub struct Colour {
    pub red: u8,
    pub green: u8,
    pub blue: u8,
}

impl Colour {
    // Puts its three bytes into the room, each by a store of its own, and answers where they end.
    pub(crate) fn put(self, room: &mut [u8], at: usize) -> usize
        requires { at + 3 ≤ length room.old }
        ensures { Puts (self.red ∷ self.green ∷ self.blue ∷ []) room.old at room.new result }
    {
        room[at] = self.red;
        room[at + 1] = self.green;
        room[at + 2] = self.blue;
        at + 3
    }
}

fn rgb(red: u8, green: u8, blue: u8) -> Colour
    ensures { result ≡ rgb_of red green blue }
{
    Colour { red, green, blue }
}

#[tactic(auto, unfolding(crate::specs::Colours::colour_of))]
pub fn colour_of(byte: u8) -> Colour
    ensures { result ≡ colour_of byte }
{
    match byte {
        0 => rgb(0, 0, 0), // black
        1 => rgb(0, 0, 170), // dark blue
        2 => rgb(0, 170, 0), // dark green
        3 => rgb(0, 170, 170), // dark cyan
        4 => rgb(170, 0, 0), // dark red
        5 => rgb(170, 0, 170), // dark magenta
        6 => rgb(170, 85, 0), // brown
        7 => rgb(170, 170, 170), // light grey
        8 => rgb(85, 85, 85), // dark grey
        9 => rgb(85, 85, 255), // light blue
        10 => rgb(85, 255, 85), // light green
        11 => rgb(85, 255, 255), // light cyan
        12 => rgb(255, 85, 85), // light red
        13 => rgb(255, 85, 255), // light magenta
        14 => rgb(255, 255, 85), // yellow
        15 => rgb(255, 255, 255), // white
        _ => of_256(byte),
    }
}

// Three bits, and two, spread over 0 to 255.
const EIGHTHS: [u8; 8] = [0, 36, 73, 109, 146, 182, 219, 255];

const QUARTERS: [u8; 4] = [0, 85, 170, 255];

// Bits 7 and 6 are blue, 5 to 3 green, 2 to 0 red.
fn of_256(byte: u8) -> Colour
    ensures { result ≡ of256 byte }
{
    let red = usize::from(byte % 8);
    let green = usize::from(byte / 8 % 8);
    let blue = usize::from(byte / 64);
    rgb(EIGHTHS[red], EIGHTHS[green], QUARTERS[blue])
}
