// The sizes of the script language.

// "A line of over 255 characters is not understood."
pub const LONGEST_LINE: usize = 255;

// "1 to 32 values", behind an address.
pub const MOST_VALUES: usize = 32;

// `burst`: "as many numbers as a line of 255 characters holds", behind its five letters, each with a space before it.
pub const MOST_NUMBERS: usize = 125;
