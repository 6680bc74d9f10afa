// The size of a line, and where its columns begin.
pub const LINE_SIZE: usize = 47;

pub const END_AT: usize = 11;

pub const RIGHTS_AT: usize = 22;

pub const WORD_AT: usize = 39;
