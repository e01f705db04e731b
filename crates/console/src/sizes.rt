// The sizes of the program's own memory.

// `words`: "looks at COUNT words, 1 to 32".
pub const MOST_LOOKED_AT: u16 = 32;

// What is read ahead of a script.
pub const AHEAD_BYTES: usize = 4096;

// Room for the name of a script.
pub const NAME_BYTES: usize = 4096;
