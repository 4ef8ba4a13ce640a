// What C is told as numbers: a step, a judgement of a place, a test.
#![tactic(auto)]

pub mod steps; // a step as three numbers
pub mod answers; // an answer as a number
pub mod name_room; // a name that has to fit
pub mod judgements; // a judgement of a place and a fault as two, a test as one

// A step's kind, its address and the byte programmed.
#[derive(Clone, Copy, Debug, PartialEq, Eq)]
pub struct StepCode {
    pub kind: u8,
    pub address: usize,
    pub byte: u8,
}

// What a place holds, and the slot of a live one.
#[derive(Clone, Copy, Debug, PartialEq, Eq)]
pub struct PlaceCode {
    pub kind: u8,
    pub slot: u32,
}

// The rule that a table copy breaks first, and the entry that breaks it.
#[derive(Clone, Copy, Debug, PartialEq, Eq)]
pub struct FaultCode {
    pub rule: u8,
    pub entry: usize,
}

// The condition of the four blocks, each test as a number.
#[derive(Clone, Copy, Debug, PartialEq, Eq)]
pub struct Bits {
    pub spt0: u8,
    pub spt1: u8,
    pub cpb0: u8,
    pub cpb1: u8,
    pub tables: u8,
    pub pointers: u8,
}
