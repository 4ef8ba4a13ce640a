// A job as bytes in a lent buffer, for callers that hold no value of this language.
#![tactic(auto)]

pub mod encoding; // a job into bytes

// The length of a buffer that holds a job.
pub const JOB_SIZE: usize = 9264;

// Where each field begins.
pub const LEN_AT: usize = 0;

pub const GRANULE_AT: usize = 8;

pub const COUNT_AT: usize = 16;

pub const DONE_AT: usize = 24;

pub const OFFSET_AT: usize = 32;

pub const FIRST_ADDRESS_AT: usize = 36;

pub const SECOND_ADDRESS_AT: usize = 40;

pub const FIRST_KIND_AT: usize = 44;

pub const SECOND_KIND_AT: usize = 46;

pub const VALUE_AT: usize = 48;

pub const PLACES_AT: usize = 56;

pub const FIRST_BLOCK_AT: usize = 1072;

pub const SECOND_BLOCK_AT: usize = 5168;
