// The job that a draft stands for, by value.
ghost use Rattle.std.specs.Prelude.{◌≡◌, ◌*◌, length, take};
ghost use Rattle.rules.specs.Bytes.{block_size};
ghost use Rattle.jobs.specs.Jobs.{place_room, lent};
ghost use Rattle.blocks.specs.Made.{no_places, no_value};
ghost use Rattle.drafts.specs.Inner.Drafted.{drafted, Sound};

use blocks::bytes;
use drafts::Draft;
use job_parts::Plan;
use jobs::Job;

// A job with no step done that rewrites two blocks.
fn rewriting(plan: Plan, first: [u8; rules::BLOCK_SIZE], second: [u8; rules::BLOCK_SIZE]) -> Job
    ensures { result ≡ lent plan 0 first second no_places no_value }
{
    Job {
        plan,
        done: 0,
        first,
        second,
        places: [0; jobs::PLACES_SIZE],
        value: [0; 8],
    }
}

// The numbers of places in the front of the room, by value.
fn numbers_in(room: &[u8]) -> [u8; jobs::PLACES_SIZE]
    requires { length room.now ≡ block_size }
    ensures { result ≡ take (2 * place_room) room.now }
{
    let mut numbers = [0; jobs::PLACES_SIZE];
    numbers.copy_from_slice(room.split_at(jobs::PLACES_SIZE).0);
    numbers
}

// The job with all its arrays.
#[tactic(auto, unfolding(drafts::specs::Inner::Drafted::drafted, drafts::specs::Inner::Drafted::Sound))]
pub fn begin(image: &[u8], draft: Draft, room: &[u8]) -> Job
    requires { Sound image.now draft × (length room.now ≡ block_size) }
    ensures { result ≡ drafted image.now room.now draft }
{
    match draft {
        Draft::NoSteps(plan) => rewriting(plan, bytes::erased_block(), bytes::erased_block()),
        Draft::Rewritten(plan) => rewriting(plan, bytes::copied(room), bytes::copied(room)),
        Draft::IntoPlaces(plan, value) => Job {
            plan,
            done: 0,
            first: bytes::erased_block(),
            second: bytes::erased_block(),
            places: numbers_in(room),
            value: bytes::bytes_of(value),
        },
        Draft::Repaired(plan, from, after) => rewriting(
            plan,
            bytes::copied(fields::block_at(image, from)),
            bytes::copied(fields::block_at(image, after)),
        ),
    }
}
