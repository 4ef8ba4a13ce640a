// The job that lent bytes hold, its arrays lent where they lie.
#![tactic(auto)]

ghost use Rattle.std.specs.Prelude.{◌≡◌, ◌+◌, ◌≤◌, length, take, drop};
ghost use Rattle.rules.specs.Bytes.{field};
ghost use Rattle.job_bytes.specs.Form.{job_size, done_at, kind_numbered, plan_from, job_from, holds_job, decoded};
ghost use Rattle.job_fields.specs.Kinds.{known_kind};

use job_parts::{Kind, Plan};
use jobs::lending::LentJob;
use rules::Refusal;

// The job, or refused where the bytes have another length or a kind is none of the three.
#[tactic(auto, unfolding(job_bytes::specs::Form::decoded, rules::specs::Answers::unless), using(crate::proofs::Held::length_held))]
pub fn job_in(bytes: &[u8]) -> Result<LentJob<'_>, Refusal>
    ensures { result ≡ decoded bytes.now }
{
    if !is_job(bytes) {
        return Err(Refusal::NotAJob);
    }
    Ok(job_from(bytes))
}

// The bytes have the length, and their kinds are kinds.
#[tactic(auto, unfolding(job_bytes::specs::Form::holds_job), using(crate::proofs::Held::kind_there))]
pub fn is_job(bytes: &[u8]) -> bool
    ensures { result ≡ holds_job bytes.now }
{
    bytes.len() == job_bytes::JOB_SIZE
        && kind_of(fields::number::<2>(bytes, job_bytes::FIRST_KIND_AT)).is_some()
        && kind_of(fields::number::<2>(bytes, job_bytes::SECOND_KIND_AT)).is_some()
}

// The job that bytes of the length hold, a kind that is none of the three read as the third.
#[tactic(auto, unfolding(job_bytes::specs::Form::job_from))]
pub fn job_from(bytes: &[u8]) -> LentJob<'_>
    requires { length bytes.now ≡ job_size }
    ensures { result ≡ job_from bytes.now }
{
    LentJob {
        plan: plan_from(bytes),
        done: done_from(bytes),
        first: part(bytes, job_bytes::FIRST_BLOCK_AT),
        second: part(bytes, job_bytes::SECOND_BLOCK_AT),
        places: part(bytes, job_bytes::PLACES_AT),
        value: part(bytes, job_bytes::VALUE_AT),
    }
}

// Its plan.
#[tactic(auto, unfolding(job_bytes::specs::Form::plan_from))]
pub fn plan_from(bytes: &[u8]) -> Plan
    requires { length bytes.now ≡ job_size }
    ensures { result ≡ plan_from bytes.now }
{
    Plan {
        len: fields::number::<8>(bytes, job_bytes::LEN_AT) as usize,
        granule: fields::number::<8>(bytes, job_bytes::GRANULE_AT) as usize,
        offset: fields::number::<4>(bytes, job_bytes::OFFSET_AT) as u32,
        first: kind_from(bytes, job_bytes::FIRST_KIND_AT),
        at: fields::number::<4>(bytes, job_bytes::FIRST_ADDRESS_AT) as u32,
        second: kind_from(bytes, job_bytes::SECOND_KIND_AT),
        after: fields::number::<4>(bytes, job_bytes::SECOND_ADDRESS_AT) as u32,
        count: fields::number::<8>(bytes, job_bytes::COUNT_AT) as usize,
    }
}

// The steps done.
pub fn done_from(bytes: &[u8]) -> usize
    requires { length bytes.now ≡ job_size }
    ensures { result ≡ field done_at 8 bytes.now }
{
    fields::number::<8>(bytes, job_bytes::DONE_AT) as usize
}

#[tactic(auto, unfolding(crate::specs::Kinds::known_kind, job_bytes::specs::Form::kind_numbered))]
fn kind_of(number: u64) -> Option<Kind>
    ensures { result ≡ known_kind number }
{
    match number {
        0 => Some(Kind::Nothing),
        1 => Some(Kind::Rewrite),
        2 => Some(Kind::Places),
        _ => None,
    }
}

// The kind of the number at a place, one that is none of the three read as the third.
#[tactic(auto, using(crate::proofs::Held::third_else))]
fn kind_from(bytes: &[u8], at: usize) -> Kind
    requires { at + 2 ≤ length bytes.now }
    ensures { result ≡ kind_numbered (field at 2 bytes.now) }
{
    kind_of(fields::number::<2>(bytes, at)).unwrap_or(Kind::Places)
}

// So many bytes from a place on.
fn part<const N: usize>(bytes: &[u8], at: usize) -> &[u8; N]
    requires { at + N ≤ length bytes.now }
    ensures { (result.now ≡ take N (drop at bytes.now)) × (length result.now ≡ N) }
{
    match bytes[at..at + N].as_array() {
        Some(part) => part,
        None => unreachable!(),
    }
}
