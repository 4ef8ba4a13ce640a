// The types and numbers that the definitions and the code share.
#![tactic(auto)]

ghost use Rattle.std.specs.Prelude.{◌≡◌};
ghost use Rattle.rules.specs.Answers.{number_of, rule_number};

// The length of a table and of a pointer block, and the unit of every partition.
pub const BLOCK_SIZE: usize = 4096;

// The most entries of a table, and the most places of a pointer block.
pub const MOST_ENTRIES: usize = 127;

pub const MOST_PLACES: usize = 508;

// The number of an entry: its row in the sub-partition table, from 0.
#[derive(Clone, Copy, Debug, PartialEq, Eq)]
pub struct EntryNo(pub usize);

// The number of a slot: application slots only, in table order, from 0.
#[derive(Clone, Copy, Debug, PartialEq, Eq)]
pub struct SlotNo(pub u32);

// The number of a pointer place in a pointer block, from 0.
#[derive(Clone, Copy, Debug, PartialEq, Eq)]
pub struct PlaceNo(pub usize);

// What a caller says of a flash beside its bytes: the erase granule, and where the two copies of the table are. The bytes
// are lent by themselves, since a start only reads them and a run stores into them.
#[derive(Clone, Copy, Debug, PartialEq, Eq)]
pub struct Setting {
    pub granule: usize,
    pub spt0: usize,
    pub spt1: usize,
}

// The eleven rules of a table copy that stands, in the order of document 01's sentence.
#[derive(Clone, Copy, Debug, PartialEq, Eq)]
pub enum TableRule {
    HeaderRight,
    CountRight,
    NameRight,
    NamesDiffer,
    RangeAligned,
    RangeInside,
    RangesApart,
    SixNamed,
    BootInfoAtZero,
    TablesAsTold,
    BlocksOnGranules,
}

impl TableRule {
    // Its number, 1 to 11.
    pub fn number(self) -> u8
        ensures { result ≡ rule_number self }
    {
        match self {
            TableRule::HeaderRight => 1,
            TableRule::CountRight => 2,
            TableRule::NameRight => 3,
            TableRule::NamesDiffer => 4,
            TableRule::RangeAligned => 5,
            TableRule::RangeInside => 6,
            TableRule::RangesApart => 7,
            TableRule::SixNamed => 8,
            TableRule::BootInfoAtZero => 9,
            TableRule::TablesAsTold => 10,
            TableRule::BlocksOnGranules => 11,
        }
    }
}

// The first rule that a table copy breaks, and the entry that breaks it; 127 where the rule is about no entry by itself.
#[derive(Clone, Copy, Debug, PartialEq, Eq)]
pub struct Fault {
    pub rule: TableRule,
    pub entry: EntryNo,
}

// The faults of SPT0 and of SPT1; a copy that stands has none.
#[derive(Clone, Copy, Debug, PartialEq, Eq)]
pub struct TableFaults {
    pub fault0: Option<Fault>,
    pub fault1: Option<Fault>,
}

// The refusals of documents 01 and 02 and, from `NotAJob` on, our own.
#[derive(Clone, Copy, Debug, PartialEq, Eq)]
pub enum Refusal {
    // The image's length is none of those allowed.
    BadLength,
    // The granule is none of the three.
    BadGranule,
    // The addresses of the table copies are equal, off a granule's border or too high.
    BadAddresses,
    // Neither pointer block stands.
    NoPointers,
    // The two copies of the table, or of the pointer block, differ.
    CopiesDiffer,
    // No slot has this number.
    NoSuchSlot,
    // The slot to disable is not in the boot order.
    NotInOrder,
    // The name is empty, too long, has a zero byte or is one of the six.
    NameNotAllowed,
    // Another entry has the name.
    NameTaken,
    // The job has no steps left.
    NoStepsLeft,
    // The image has another length than at the start, or a step falls outside it.
    OutsideImage,
    // The row lent for the boot order is too short.
    RowTooShort,
    // The slot to enable begins with 4,096 erased bytes.
    SlotEmpty,
    // The new order has more slots than the block has places.
    NoPlaceLeft,
    // The length of a new slot is 0 or not a multiple of 4,096.
    LengthWrong,
    // The table has no row left for a new slot.
    NoRowLeft,
    // There is no start for a new slot of this length.
    NoStart,
    // The slot to delete is in the boot order.
    IsInOrder,
    // Neither table copy has the magic.
    NoMagic(TableFaults),
    // Neither table copy stands, though one has the magic.
    NoTable(TableFaults),
    // The buffer lent for a job has another length than a job's, or its bytes are none.
    NotAJob,
    // The bytes lent for a name are too few.
    NameTooLong,
    // No entry has this number.
    NoSuchEntry,
    // No place has this number.
    NoSuchPlace,
}

impl Refusal {
    // Its fixed number.
    pub fn number(self) -> u8
        ensures { result ≡ number_of self }
    {
        match self {
            Refusal::BadLength => 1,
            Refusal::BadGranule => 2,
            Refusal::BadAddresses => 3,
            Refusal::NoPointers => 5,
            Refusal::CopiesDiffer => 6,
            Refusal::NoSuchSlot => 7,
            Refusal::NotInOrder => 8,
            Refusal::NameNotAllowed => 9,
            Refusal::NameTaken => 10,
            Refusal::NoStepsLeft => 11,
            Refusal::OutsideImage => 12,
            Refusal::RowTooShort => 13,
            Refusal::SlotEmpty => 14,
            Refusal::NoPlaceLeft => 15,
            Refusal::LengthWrong => 40,
            Refusal::NoRowLeft => 41,
            Refusal::NoStart => 42,
            Refusal::IsInOrder => 43,
            Refusal::NoMagic(_) => 50,
            Refusal::NoTable(_) => 51,
            Refusal::NotAJob => 90,
            Refusal::NameTooLong => 91,
            Refusal::NoSuchEntry => 92,
            Refusal::NoSuchPlace => 93,
        }
    }
}

// What one pointer place holds. Document 01's "dead" is one of spent, part-written and stray.
#[derive(Clone, Copy, Debug, PartialEq, Eq)]
pub enum Place {
    Erased,
    Spent,
    Live(SlotNo),
    PartWritten,
    Stray(u64),
}

// Where the four blocks are, and the addresses of the two copies that are read.
#[derive(Clone, Copy, Debug, PartialEq, Eq)]
pub struct View {
    pub spt0: usize,
    pub spt1: usize,
    pub cpb0: usize,
    pub cpb1: usize,
    pub table: usize,
    pub pointers: usize,
}

// What is known of an application slot, beside its name.
#[derive(Clone, Copy, Debug, PartialEq, Eq)]
pub struct SlotInfo {
    pub entry: EntryNo,
    pub start: u64,
    pub size: u64,
    pub flags: u64,
}

// One step of the device: a byte programmed at an address, or the granule at an address erased.
#[derive(Clone, Copy, Debug, PartialEq, Eq)]
pub enum Step {
    Program(usize, u8),
    Erase(usize),
}
