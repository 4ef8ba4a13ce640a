// Jobs: none, and the plans of those that rewrite blocks or put bytes into places.
ghost use Rattle.std.specs.Prelude.{◌≡◌, true, false, cond, ◌≤◌};
ghost use Rattle.job_parts.specs.declared.Kind.TheVariants.{Nothing, Rewrite};
ghost use Rattle.blocks.specs.Made.{target, rewrites_plan, places_plan, no_job};

use super::{Target, bytes};
use job_parts::{Kind, Plan};
use jobs::Job;

// The job of no steps, for no image.
#[tactic(auto, unfolding(crate::specs::Made::rewrites, crate::specs::Made::no_steps, crate::specs::Made::no_job))]
pub fn no_job() -> Job
    ensures { result ≡ no_job }
{
    Job {
        plan: rewrites_plan(0, 0, false, 0, false, 0),
        done: 0,
        first: bytes::erased_block(),
        second: bytes::erased_block(),
        places: [0; jobs::PLACES_SIZE],
        value: [0; 8],
    }
}

fn kind_of(wanted: bool) -> Kind
    ensures { result ≡ cond wanted Rewrite Nothing }
{
    if wanted { Kind::Rewrite } else { Kind::Nothing }
}

// A block rewritten at an address, or not, then another.
pub fn rewrites_plan(
    len: usize,
    granule: usize,
    first: bool,
    at: u32,
    second: bool,
    after: u32,
) -> Plan
    ensures { result ≡ rewrites_plan len granule first at second after }
{
    Plan {
        len,
        granule,
        offset: 0,
        first: kind_of(first),
        at,
        second: kind_of(second),
        after,
        count: 0,
    }
}

// The pair whose copies are at two addresses.
pub fn target(len: usize, granule: usize, at0: usize, at1: usize) -> Target
    requires { (at0 ≤ 0xFFFFFFFF) × (at1 ≤ 0xFFFFFFFF) }
    ensures { result ≡ target len granule at0 at1 }
{
    Target {
        len,
        granule,
        at0: at0 as u32,
        at1: at1 as u32,
    }
}

// No steps, for the image of a pair.
pub fn no_plan(to: Target) -> Plan
    ensures { result ≡ rewrites_plan to.len to.granule false 0 false 0 }
{
    rewrites_plan(to.len, to.granule, false, 0, false, 0)
}

// Both copies of a pair rewritten, copy 1 and then copy 0.
pub fn pair_plan(to: Target) -> Plan
    ensures { result ≡ rewrites_plan to.len to.granule true to.at1 true to.at0 }
{
    rewrites_plan(to.len, to.granule, true, to.at1, true, to.at0)
}

// Bytes into so many places of a pair, in copy 1, then in copy 0.
pub fn places_plan(to: Target, offset: u32, count: usize) -> Plan
    ensures { result ≡ places_plan to.len to.granule offset to.at1 to.at0 count }
{
    Plan {
        len: to.len,
        granule: to.granule,
        offset,
        first: Kind::Places,
        at: to.at1,
        second: Kind::Places,
        after: to.at0,
        count,
    }
}
