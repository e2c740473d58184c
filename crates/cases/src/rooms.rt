// What main lends for the list and for the screen: memory is fixed, and of each room only the first part is in use.
use desk::list::WORDS;

// The screen's room: 2,048 x 2,048 bytes.
pub const SCREEN: usize = 4194304;

#[derive(Drop)]
pub struct Rooms<'a> {
    pub words: &'a mut [u16; WORDS],
    pub screen: &'a mut [u8; SCREEN],
}
