// The frame: what may be drawn on, and from where.
use crate::dots::Dot;

// Columns left to right and rows top to bottom of the screen, both ends inside.
#[repr(C)]
#[derive(Clone, Copy)]
pub struct Pane {
    pub left: u32,
    pub top: u32,
    pub right: u32,
    pub bottom: u32,
}

// The screen's size and the pane: no opcode changes them.
#[repr(C)]
#[derive(Clone, Copy)]
pub struct Bounds {
    pub width: u32,
    pub height: u32,
    pub pane: Pane,
}

// The clip window, both corners inside; empty where x0 is above x1 or y0 above y1.
#[repr(C)]
#[derive(Clone, Copy)]
pub struct Window {
    pub x0: i32,
    pub y0: i32,
    pub x1: i32,
    pub y1: i32,
}

// Coordinates are relative to the origin. In clip mode 1 the window is too, in mode 2 it is absolute: a number, as the environment
// holds it for C. No invariant says `Sane`, since the definitions and the laws of painting speak of every frame.
#[repr(C)]
#[derive(Clone, Copy)]
pub struct Frame {
    pub bounds: Bounds,
    pub origin: Dot,
    pub mode: u32,
    pub window: Window,
}
