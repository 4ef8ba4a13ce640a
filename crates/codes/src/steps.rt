// A step as three numbers: its kind, its address and the byte programmed.
ghost use Rattle.std.specs.Prelude.{◌≡◌};
ghost use Rattle.codes.specs.StepNumbers.{step_kind, step_address, step_byte};

use super::StepCode;
use rules::Step;

// 0 for the address where there is no step, and for the byte where none is programmed.
#[tactic(auto, unfolding(crate::specs::StepNumbers::step_kind, crate::specs::StepNumbers::step_address, crate::specs::StepNumbers::step_byte))]
pub fn step_code(next: Option<Step>) -> StepCode
    ensures { (result.kind ≡ step_kind next) × ((result.address ≡ step_address next) × (result.byte ≡ step_byte next)) }
{
    match next {
        None => StepCode {
            kind: 0,
            address: 0,
            byte: 0,
        },
        Some(Step::Program(address, byte)) => StepCode {
            kind: 1,
            address,
            byte,
        },
        Some(Step::Erase(address)) => StepCode {
            kind: 2,
            address,
            byte: 0,
        },
    }
}
