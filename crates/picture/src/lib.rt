// A screen as a picture: the colour of a byte, and the bytes of picture files.
#![tactic(auto)]

pub mod palette; // the colour of a byte
pub mod ppm; // binary PPM
pub mod checksum; // CRC-32 and Adler-32
pub mod png; // PNG
