// Memory map: every place, every field of a word and every bound by the name that specs/Map.antt gives it, in the paper's numbers. An address
// or the number of a word is wide; what stands in a word is a byte.

// "8,192 words of 8 bits, 256 pages of 32", the first as a slice counts them too.
pub const MEMORY_SIZE: u16 = 8192;

pub const MEMORY_WORDS: usize = 8192;

pub const LAST_ADDRESS: u16 = 8191;

pub const WORD_VALUES: u16 = 256;

pub const PAGE_SIZE: u16 = 32;

pub const PAGE_WORDS: usize = 32;

// How many values a field has: of four bits, of three, of the high part of an address, of one bit.
pub const FIELD: u8 = 16;

pub const FLAGS: u8 = 8;

pub const HIGHS: u8 = 32;

pub const HIGHS_WIDE: u16 = 32;

pub const BITS: u16 = 2;

// The most that fields of four and three bits, the high part of an address, a word and a bit hold.
pub const FOUR_BITS: u8 = 15;

pub const FOUR_BITS_WIDE: u16 = 15;

pub const THREE_BITS: u8 = 7;

pub const FIVE_BITS: u8 = 31;

pub const A_WORD: u8 = 255;

pub const A_WORD_WIDE: u16 = 255;

pub const ONE_BIT: u16 = 1;

// "10 P Z CI then LR's high five bits": what each flag weighs.
pub const P_BIT: u16 = 128;

pub const Z_BIT: u16 = 64;

pub const CI_BIT: u16 = 32;

// "12 stopped bit, waiting bit, two zeros, four bits W": what each bit weighs, and how many values W has.
pub const STOP_BIT: u8 = 128;

pub const STOP_BIT_WIDE: u16 = 128;

pub const WAIT_BIT: u8 = 64;

pub const W_VALUES: u16 = 16;

// "I X XN": what I and X weigh.
pub const INDIRECT_BIT: u8 = 8;

pub const INDEX_BIT: u8 = 4;

// "Protected: addresses 0-15, 128-351, 7552-8191."
pub const GUARDED_END: u16 = 16;

pub const GUARDED_FROM: u16 = 4 * 32;

pub const GUARDED_TO: u16 = 11 * 32;

pub const GUARDED_LAST: u16 = 236 * 32;

// Page 0: "words 4-6 and 16-31" are kept, nineteen, three before the rest; VEP's return words; "X register XN (words 24+2XN, 25+2XN)".
pub const PAGE_ZERO: u16 = 0;

pub const KEPT_COUNT: u16 = 19;

pub const KEPT_WORDS: usize = 19;

pub const EARLY_WORDS: u16 = 4;

pub const EARLY_COUNT: u16 = 3;

pub const LATER_WORDS: u16 = 16 - 3;

pub const RETURN_HIGH: u16 = 5;

pub const RETURN_LOW: u16 = 6;

pub const X_REGISTERS: u16 = 24;

// "Pages 4-7 ..: interrupt k (1-54) has its semaphore at 2k+1 and queue header at 2k+2", and so has interrupt i + 1, for counting from 0.
pub const INTERRUPT_PAGE: u16 = 4 * 32;

pub const INTERRUPTS: u8 = 54;

pub const INTERRUPT_NUMBERS: u16 = 55;

pub const SEMAPHORES: u16 = 4 * 32 + 1;

pub const HEADERS: u16 = 4 * 32 + 2;

pub const SEMAPHORES_AFTER: u16 = 4 * 32 + 3;

pub const HEADERS_AFTER: u16 = 4 * 32 + 4;

// "On page 7: 15 clock line, 16-19 counters C0-C3, 20 free list, 21 its semaphore, 22 queue waiting for a page, 23 processor list, 24 running
// page (0: idle), 25 running priority and name (0: idle), 26 zero, 27 divider".
pub const CLOCK_LINE: u16 = 7 * 32 + 15;

pub const C0: u16 = 7 * 32 + 16;

pub const C1: u16 = 7 * 32 + 17;

pub const C2: u16 = 7 * 32 + 18;

pub const C3: u16 = 7 * 32 + 19;

pub const FREE_LIST: u16 = 7 * 32 + 20;

pub const FREE_SEMAPHORE: u16 = 7 * 32 + 21;

pub const PAGE_QUEUE: u16 = 7 * 32 + 22;

pub const PROCESSOR_LIST: u16 = 7 * 32 + 23;

pub const RUNNING_PAGE: u16 = 7 * 32 + 24;

pub const RUNNING_LABEL: u16 = 7 * 32 + 25;

pub const ZERO_WORD: u16 = 7 * 32 + 26;

pub const DIVIDER: u16 = 7 * 32 + 27;

// "Page 8: code c at words 2c, 2c+1".
pub const CODE_WORDS: u16 = 8 * 32;

pub const CODE_LOWS: u16 = 8 * 32 + 1;

pub const ALL_CODES: u8 = 16;

pub const BUILT_IN_CODES: u8 = 15;

// "Page 9: word 0 is the first unused word, 1-32"; entry i + 1, for counting from 0.
pub const FIRST_UNUSED: u16 = 9 * 32;

pub const ENTRIES_AFTER: u16 = 9 * 32 + 1;

pub const ENTRIES: u8 = 31;

pub const ENTRIES_FULL: u8 = 32;

// "Page 10, word k: page granted to processor k, or 0".
pub const GRANTS: u16 = 10 * 32;

pub const GRANTS_END: u16 = 11 * 32;

pub const GRANT_WORDS: u8 = 32;

// "Pages 236-255: the control pages". A walk that counts goes one page further than there are.
pub const CONTROL_PAGE: u16 = 236 * 32;

pub const FIRST_CONTROL: u8 = 236;

pub const FIRST_CONTROL_WIDE: u16 = 236;

pub const LAST_CONTROL: u8 = 255;

pub const CONTROL_PAGES: u8 = 20;

pub const ONE_MORE: u8 = 21;

// "Processor page: 0 link, 1 list link, 2 reason for waiting, 3 and 4 semaphore and header of its own message wait, 5 and 6 message queues Q1
// and Q2, 7 priority*16+name, 8 A, 9 S, 10 P Z CI then LR's high five bits, 11 LR's low bits, 12" its state, "13-15 and 16-31 keep words 4-6
// and 16-31 of page 0".
pub const LINK: u16 = 0;

pub const LIST_LINK: u16 = 1;

pub const REASON: u16 = 2;

pub const OWN_SEMAPHORE: u16 = 3;

pub const OWN_QUEUE: u16 = 4;

pub const Q1: u16 = 5;

pub const Q2: u16 = 6;

pub const LABEL: u16 = 7;

pub const WORD_A: u16 = 8;

pub const WORD_S: u16 = 9;

pub const HIGH_LR: u16 = 10;

pub const LOW_LR: u16 = 11;

pub const STATE: u16 = 12;

pub const KEEPS: u16 = 13;

// "Message page: 0 link, 1 sender*16+flag, 2 length 0-29, 3-31 text. A notice has 128 in word 2 and is read as length 0." RME hands out three
// words before the text.
pub const NOTE: u16 = 1;

pub const SIZE: u16 = 2;

pub const TEXT: u16 = 3;

pub const LONGEST: u8 = 29;

pub const NOTICE: u8 = 128;

// "marks every message it sent that is still unread, by 64 added in word 2"
pub const MARK: u8 = 64;

pub const HEAD_WORDS: u8 = 3;

pub const HEAD_WORDS_WIDE: u16 = 3;

// "names 1-15, priorities 1-15, flags 1-7", "faults 1 to 13".
pub const FIRST_NAME: u8 = 1;

pub const LAST_NAME: u8 = 15;

pub const LAST_PRIORITY: u8 = 15;

pub const LAST_FLAG: u8 = 7;

pub const LAST_FAULT: u8 = 13;

// "interrupt not 16-50", "line 16-47", "For 48-50 .. the class number 0-31".
pub const FIRST_OUTER: u8 = 16;

pub const FIRST_OUTER_WIDE: u16 = 16;

pub const LAST_LINE: u8 = 47;

pub const LAST_LINE_WIDE: u16 = 47;

pub const FIRST_CLASSED: u8 = 48;

pub const FIRST_CLASSED_WIDE: u16 = 48;

pub const LAST_OUTER: u8 = 50;

pub const LAST_OUTER_WIDE: u16 = 50;

pub const LAST_CLASS: u16 = 31;

// "up to 32 interrupts, as pairs of number and class number": a pair's bytes, and those of the longest list.
pub const PAIR_BYTES: usize = 2;

pub const LONGEST_LIST: usize = 64;

// "51 is served and C1 counts; at 10, 52 and C2; at 60, 53 and C3; at 60, 54".
pub const C0_INTERRUPT: u8 = 51;

pub const C1_INTERRUPT: u8 = 52;

pub const C2_INTERRUPT: u8 = 53;

pub const C3_INTERRUPT: u8 = 54;

pub const C1_END: u8 = 10;

pub const C2_END: u8 = 60;

pub const C3_END: u8 = 60;

// "clears page 0, pages 4-10 and 236-255"; "processor 1, priority 1, LR 2752 on page 236"; "237-255 free in order": how many, and links between.
pub const KERNEL_WORDS: u16 = 7 * 32;

pub const CONTROL_WORDS: u16 = 20 * 32;

pub const FIRST_LABEL: u8 = 16 + 1;

pub const START_ADDRESS: u16 = 2752;

pub const FIRST_FREE: u8 = 237;

pub const FREE_PAGES: u8 = 19;

pub const FREE_LINKS: u8 = 18;
