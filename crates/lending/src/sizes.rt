// "The program keeps one buffer of 8,200 words, all zero at the start, and a length, 8,192 at the start."
pub const BUFFER_WORDS: usize = 8200;
