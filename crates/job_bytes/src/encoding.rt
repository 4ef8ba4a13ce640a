// A job into bytes: its numbers, and of its arrays what its steps use.
ghost use Rattle.std.specs.Prelude.{◌≡◌, ◌+◌, ◌≤◌, length, take, drop};
ghost use Rattle.rules.specs.Bytes.{block_size};
ghost use Rattle.rules.specs.Final.{put_at};
ghost use Rattle.jobs.specs.Jobs.{lent};
ghost use Rattle.job_parts.specs.declared.Kind.TheVariants.{Rewrite};
ghost use Rattle.job_bytes.specs.Form.{job_size, len_at, offset_at, first_kind_at, kind_number, meant_size};
ghost use Rattle.job_bytes.specs.Form.{sizes_encoded, addresses_encoded, kinds_encoded, numbers_encoded, block_over, encoded_over};
ghost use Rattle.job_bytes.specs.Inner.Fitting.{Fitting};

use fields::stores;
use job_parts::{Kind, Plan};

// A job with no step done into a buffer of that length, its arrays lent: what its steps do not use is not copied, and need
// not be lent.
pub fn encode<'a>(
    plan: Plan,
    first: &'a [u8],
    second: &'a [u8],
    places: &'a [u8],
    value: &'a [u8],
    out: &mut [u8],
)
    requires { (length out.old ≡ job_size) × Fitting (lent plan 0 first.now second.now places.now value.now) }
    ensures { out.new
        ≡ encoded_over out.old
        (lent plan 0 first.now second.now places.now value.now) }
{
    store_numbers(out, plan, 0);
    stores::copy(out, super::VALUE_AT, value);
    let size = meant_size(plan.count);
    stores::copy(out, super::PLACES_AT, &places[..size]);
    store_block(out, super::FIRST_BLOCK_AT, plan.first, first);
    store_block(out, super::SECOND_BLOCK_AT, plan.second, second);
}

fn store_numbers(out: &mut [u8], plan: Plan, done: usize)
    requires { length out.old ≡ job_size }
    ensures { out.new ≡ put_at 0 (numbers_encoded plan done) out.old }
{
    store_sizes(out, plan, done);
    store_addresses(out, plan);
    store_kinds(out, plan);
}

fn store_sizes(out: &mut [u8], plan: Plan, done: usize)
    requires { length out.old ≡ job_size }
    ensures { out.new ≡ put_at len_at (sizes_encoded plan done) out.old }
{
    stores::store::<8>(out, super::LEN_AT, plan.len as u64);
    stores::store::<8>(out, super::GRANULE_AT, plan.granule as u64);
    stores::store::<8>(out, super::COUNT_AT, plan.count as u64);
    stores::store::<8>(out, super::DONE_AT, done as u64);
}

fn store_addresses(out: &mut [u8], plan: Plan)
    requires { length out.old ≡ job_size }
    ensures { out.new ≡ put_at offset_at (addresses_encoded plan) out.old }
{
    stores::store::<4>(out, super::OFFSET_AT, plan.offset as u64);
    stores::store::<4>(out, super::FIRST_ADDRESS_AT, plan.at as u64);
    stores::store::<4>(out, super::SECOND_ADDRESS_AT, plan.after as u64);
}

fn store_kinds(out: &mut [u8], plan: Plan)
    requires { length out.old ≡ job_size }
    ensures { out.new ≡ put_at first_kind_at (kinds_encoded plan) out.old }
{
    stores::store::<2>(out, super::FIRST_KIND_AT, number_of(plan.first));
    stores::store::<2>(out, super::SECOND_KIND_AT, number_of(plan.second));
}

// The bytes of the places' numbers that are meant.
fn meant_size(count: usize) -> usize
    ensures { result ≡ meant_size count }
{
    2 * count.min(rules::MOST_PLACES)
}

fn store_block(out: &mut [u8], at: usize, kind: Kind, block: &[u8])
    requires { (at + block_size ≤ length out.old) × (kind ≡ Rewrite → length block.now ≡ block_size) }
    ensures { out.new
        ≡ put_at at
        (block_over kind block.now (take block_size (drop at out.old)))
        out.old }
{
    match kind {
        Kind::Rewrite => stores::copy_block(out, at, block),
        Kind::Nothing | Kind::Places => {}
    }
}

#[tactic(auto, unfolding(crate::specs::Form::kind_number))]
fn number_of(kind: Kind) -> u64
    ensures { result ≡ kind_number kind }
{
    kind as u64
}
