// Refusals 1 to 3: the image's length, the granule, and the addresses that the caller gives.
#![tactic(auto)]

ghost use Rattle.std.specs.Prelude.{◌≡◌, ◌<◌};
ghost use Rattle.rules.specs.Numbers.{length_right, granule_right, address_right, addresses_right};
ghost use Rattle.bounds.specs.Inner.Due.{due};

use rules::{BLOCK_SIZE, Refusal, Setting};

// The greatest length of an image; its unit and the least one is a block.
const LENGTH_MAX: usize = 268435456;

// The first of refusals 1 to 3 that is due.
#[tactic(auto, unfolding(crate::specs::Inner::Due::due, rules::specs::Answers::unless), using(rules::proofs::Claim::Invariant::granule_holds_block))]
pub fn due(setting: Setting, len: usize) -> Result<(), Refusal>
    ensures { result ≡ due setting len }
{
    if !length_right(len) {
        return Err(Refusal::BadLength);
    }
    if !granule_right(setting.granule) {
        return Err(Refusal::BadGranule);
    }
    if !addresses_right(setting, len) {
        return Err(Refusal::BadAddresses);
    }
    Ok(())
}

#[tactic(auto, unfolding(rules::specs::Numbers::length_right, rules::specs::Bytes::multiple))]
fn length_right(len: usize) -> bool
    ensures { result ≡ length_right len }
{
    len % BLOCK_SIZE == 0 && BLOCK_SIZE <= len && len <= LENGTH_MAX
}

#[tactic(auto, unfolding(rules::specs::Numbers::granule_right))]
fn granule_right(granule: usize) -> bool
    ensures { result ≡ granule_right granule }
{
    matches!(granule, 4096 | 32768 | 65536)
}

// A multiple of the granule from which a granule does not pass the image's end.
#[tactic(auto, unfolding(rules::specs::Numbers::address_right, rules::specs::Bytes::multiple))]
fn address_right(granule: usize, len: usize, at: usize) -> bool
    requires { 0 < granule }
    ensures { result ≡ address_right granule len at }
{
    at % granule == 0 && fields::bounds::ends_by(at as u64, granule as u64, len as u64)
}

#[tactic(auto, unfolding(rules::specs::Numbers::addresses_right))]
fn addresses_right(setting: Setting, len: usize) -> bool
    requires { 0 < setting.granule }
    ensures { result ≡ addresses_right setting len }
{
    let granule = setting.granule;
    setting.spt0 != setting.spt1
        && address_right(granule, len, setting.spt0)
        && address_right(granule, len, setting.spt1)
}
