// The limits of runs, of steps and of the programs. specs/Limits.antt says the numbers again, so that a changed constant breaks a promise and does not change it.

pub const MOST_RECORDS: usize = 64;

// 64 × 63: the pairs of two different records, and a pair is listed once.
pub const MOST_LINES: usize = 4032;

pub const MOST_PROCESSORS: u8 = 16;

// 2^62: every reading is below it.
pub const READING_LIMIT: u64 = 4611686018427387904;

// 2^62: no case makes more steps in all since its opening.
pub const MOST_STEPS: u64 = 4611686018427387904;

// So many steps the programs search.
pub const PROGRAM_STEPS: u64 = 1_000_000;

// So many bytes of a program's input count.
pub const INPUT_LIMIT: usize = 4096;
