// `.new`, and room for it behind a file's name, which has 4,096 bytes at most.
pub const NEW_BYTES: usize = 4;

pub const NEW_NAME_ROOM: usize = 4100;
