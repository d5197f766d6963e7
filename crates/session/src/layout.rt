// The numbers of the program: how much is kept of the stream and of the text at a time, and the axes.
// The window holds the longest code ten times over, and the buffer the longest line some seventy times.
pub const WINDOW_BYTES: usize = 65536;

pub const TEXT_BYTES: usize = 65536;

// The axes that the table starts with.
pub const UP: u32 = 1;

pub const FORWARD: u32 = 0;
