// Settings that survive a box swap: blocks, trailers and files as slices of bytes; which of them are good, and the writing of a block into a lent buffer.
// Nothing here touches the kernel's memory.
#![tactic(auto)]

pub mod block;
pub mod entries;
pub mod file;
pub mod write;
