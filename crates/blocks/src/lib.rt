// What a command makes up beforehand: blocks, by value or in a room lent for them, and the plans of jobs.
#![tactic(auto)]

pub mod bytes; // bytes put into a block
pub mod tables; // a table with another name in an entry
pub mod made; // jobs, and their plans

// The numbers of some places, two bytes each, in the front of an array.
#[derive(Clone, Copy)]
pub struct PlaceList {
    pub places: [u8; jobs::PLACES_SIZE],
    pub count: usize,
}

// The pair that a job is for: the image's length, the granule, where copy 0 and copy 1 are.
#[derive(Clone, Copy)]
pub struct Target {
    pub len: usize,
    pub granule: usize,
    pub at0: u32,
    pub at1: u32,
}
