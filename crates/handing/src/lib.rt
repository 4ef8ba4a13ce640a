// A command started into a lent buffer: its job as bytes there, or its refusal.
#![tactic(auto)]

ghost use Rattle.std.specs.Prelude.{◌≡◌, length};
ghost use Rattle.rules.specs.Bytes.{block_size};
ghost use Rattle.rules.specs.Numbers.{setting};
ghost use Rattle.commands.specs.Begins.{command_of, start_answer};
ghost use Rattle.drafts.specs.Inner.Drafted.{drafted, Sound};
ghost use Rattle.job_bytes.specs.Form.{job_size, encoded_over};
ghost use Rattle.handing.specs.Begun.{handed, started_into};

use blocks::bytes;
use commands::Command;
use drafts::Draft;
use job_bytes::encoding::encode;
use rules::{Refusal, Setting};

// The job that a draft stands for into the buffer. What its steps do not use is not copied.
#[tactic(auto, unfolding(drafts::specs::Inner::Drafted::drafted, drafts::specs::Inner::Drafted::Sound), using(crate::proofs::HandedOver::no_steps_over, crate::proofs::HandedOver::no_places_over, crate::proofs::HandedOver::no_blocks_over, crate::proofs::HandedOver::no_steps_fit, crate::proofs::HandedOver::no_places_fit, crate::proofs::HandedOver::no_blocks_fit))]
fn hand_over(image: &[u8], draft: Draft, room: &[u8], job: &mut [u8])
    requires whole { length job.old ≡ job_size }
    requires sound { Sound image.now draft }
    requires room { length room.now ≡ block_size }
    ensures { job.new ≡ encoded_over job.old (drafted image.now room.now draft) }
{
    let zeros = [0; 8];
    match draft {
        Draft::NoSteps(plan) => encode(plan, b"", b"", b"", &zeros, job),
        Draft::Rewritten(plan) => encode(plan, room, room, b"", &zeros, job),
        Draft::IntoPlaces(plan, value) => {
            let (numbers, _) = room.split_at(jobs::PLACES_SIZE);
            encode(plan, b"", b"", numbers, &bytes::bytes_of(value), job);
        }
        Draft::Repaired(plan, from, after) => {
            let first = fields::block_at(image, from);
            let second = fields::block_at(image, after);
            encode(plan, first, second, b"", &zeros, job);
        }
    }
}

// A command started into a lent buffer: refused 90 where that has another length than a job's. A number, since C gets it
// as it is.
#[tactic(auto, using(crate::proofs::Beginning::other_length))]
pub fn start_into(
    image: &[u8],
    granule: usize,
    spt0: usize,
    spt1: usize,
    command: Command,
    name: &[u8],
    job: &mut [u8],
) -> u8
    ensures { handed result job.new
        ≡ started_into job.old
        (start_answer (setting granule spt0 spt1) image.now (command_of command name.now)) }
{
    if job.len() != job_bytes::JOB_SIZE {
        return Refusal::NotAJob.number();
    }
    let setting = Setting {
        granule,
        spt0,
        spt1,
    };
    let mut room = bytes::erased_block();
    match commands::draft_command(image, setting, command, name, &mut room) {
        Err(why) => why.number(),
        Ok(draft) => {
            hand_over(image, draft, &room, job);
            0
        }
    }
}
