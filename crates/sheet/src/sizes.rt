// The sizes of the program, by the names that specs/Words.antt gives them.

// "none to 255 groups of four": the head of a version from 3 on, and 255 entries of five bytes.
pub const BLOCK_ROOM: usize = 1292;

pub const MOST_BEHIND: usize = 1275;

// An address has two bytes of an entry, from this one on.
pub const ADDRESS_PLACE: usize = 3;

// "The program's buffer has 8,192 bytes".
pub const FILE_ROOM: usize = 8192;

// The first word of a block, behind the program's own name and the file's.
pub const FIRST_WORD: usize = 2;

// A file's name has at most so many bytes.
pub const NAME_ROOM: usize = 4096;

// A word of the command line that has more is no word of a block.
pub const WORD_ROOM: usize = 65536;
