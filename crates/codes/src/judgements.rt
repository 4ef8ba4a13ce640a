// A judgement of a place and a fault of a table copy as two numbers each, and a test as one.
ghost use Rattle.std.specs.Prelude.{◌≡◌};
ghost use Rattle.codes.specs.Judged.{bit, place_kind, place_slot, fault_rule, fault_entry};

use super::{Bits, FaultCode, PlaceCode};
use conditions::Condition;
use rules::{Fault, Place};

// The slot is 0 where the place is not live.
#[tactic(auto, unfolding(crate::specs::Judged::place_kind, crate::specs::Judged::place_slot))]
pub fn place_code(place: Place) -> PlaceCode
    ensures kind { result.kind ≡ place_kind place }
    ensures slot { result.slot ≡ place_slot place }
{
    match place {
        Place::Erased => PlaceCode { kind: 0, slot: 0 },
        Place::Live(s) => PlaceCode { kind: 1, slot: s.0 },
        Place::Spent => PlaceCode { kind: 2, slot: 0 },
        Place::PartWritten => PlaceCode { kind: 3, slot: 0 },
        Place::Stray(_) => PlaceCode { kind: 4, slot: 0 },
    }
}

// What is told of an entry where there is none.
const NO_ENTRY: usize = 127;

// Rule 0 and entry 127 for a copy that stands.
#[tactic(auto, unfolding(crate::specs::Judged::fault_rule, crate::specs::Judged::fault_entry))]
pub fn fault_code(fault: Option<Fault>) -> FaultCode
    ensures rule { result.rule ≡ fault_rule fault }
    ensures entry { result.entry ≡ fault_entry fault }
{
    match fault {
        None => FaultCode {
            rule: 0,
            entry: NO_ENTRY,
        },
        Some(f) => FaultCode {
            rule: f.rule.number(),
            entry: f.entry.0,
        },
    }
}

#[tactic(auto, unfolding(crate::specs::Judged::bit))]
fn bit(test: bool) -> u8
    ensures { result ≡ bit test }
{
    u8::from(test)
}

pub fn bits_of(k: Condition) -> Bits
    ensures spt0 { result.spt0 ≡ bit k.spt0 }
    ensures spt1 { result.spt1 ≡ bit k.spt1 }
    ensures cpb0 { result.cpb0 ≡ bit k.cpb0 }
    ensures cpb1 { result.cpb1 ≡ bit k.cpb1 }
    ensures tables { result.tables ≡ bit k.tables }
    ensures pointers { result.pointers ≡ bit k.pointers }
{
    Bits {
        spt0: bit(k.spt0),
        spt1: bit(k.spt1),
        cpb0: bit(k.cpb0),
        cpb1: bit(k.cpb1),
        tables: bit(k.tables),
        pointers: bit(k.pointers),
    }
}
