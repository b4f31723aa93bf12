// The numbers of the file format.

// Bytes in a block.
pub(crate) const BLOCK: usize = 512;

// Where the last four words of a block stand, in bytes.
pub(crate) const NUMBER: usize = 496;

pub(crate) const COUNT: usize = 500;

pub(crate) const TOTAL: usize = 504;

pub(crate) const CHECK: usize = 508;

// Words of lines in a block.
pub(crate) const LINE_WORDS: usize = 124;

// The most lines of a table.
pub(crate) const TABLE_LINES: u64 = 1312;

// The sizes of the buffers: a file's bytes, a table's words.
pub(crate) const FILE_BYTES: usize = 22016;

pub(crate) const TABLE_WORDS: usize = 5248;
