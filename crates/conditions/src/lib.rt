// Which copies of a flash stand, and which pairs agree.
#![tactic(auto)]

ghost use Rattle.std.specs.Prelude.{◌≡◌, ◌&&◌, ◌+◌, ◌≤◌, length};
ghost use Rattle.rules.specs.Lists.{same};
ghost use Rattle.rules.specs.Bytes.{block, block_size};
ghost use Rattle.conditions.specs.Condition.{condition_by, condition};

use rules::{Refusal, Setting};
use views::opened::{self, Opened};

// For each of the four blocks whether it stands, for each pair whether it agrees.
#[derive(Clone, Copy, Debug, PartialEq, Eq)]
pub struct Condition {
    pub spt0: bool,
    pub spt1: bool,
    pub cpb0: bool,
    pub cpb1: bool,
    pub tables: bool,
    pub pointers: bool,
}

// Refusals 1, 2, 3, 50, 51 and 5, or the condition of the four blocks.
#[tactic(auto, unfolding(crate::specs::Condition::condition))]
pub fn condition_of(image: &[u8], setting: Setting) -> Result<Condition, Refusal>
    ensures { result ≡ condition setting image.now }
{
    let flash = opened::open(image, setting)?;
    Ok(condition_by(&flash))
}

#[tactic(auto, using(views::proofs::Opening::granule_positive, views::proofs::Opening::same_spt0, views::proofs::Opening::same_spt1), unfolding(crate::specs::Condition::condition_by, rules::specs::Copies::tables_agree, rules::specs::Copies::pointers_agree, rules::specs::Copies::pair_agrees))]
fn condition_by(flash: &Opened<'_>) -> Condition
    ensures { result ≡ condition_by flash.now.setting flash.now.image.now flash.now.view }
{
    let image = flash.image;
    let setting = flash.setting;
    let v = flash.view;
    let spt0 = table::table_stands(image, v.spt0, setting);
    let spt1 = table::table_stands(image, v.spt1, setting);
    let cpb0 = places::pointers_stand(image, v.cpb0);
    let cpb1 = places::pointers_stand(image, v.cpb1);
    Condition {
        spt0,
        spt1,
        cpb0,
        cpb1,
        tables: agree(image, v.spt0, v.spt1, spt0 & spt1),
        pointers: agree(image, v.cpb0, v.cpb1, cpb0 & cpb1),
    }
}

// A pair agrees: both copies stand, and they are equal.
fn agree(image: &[u8], a0: usize, a1: usize, both_stand: bool) -> bool
    requires first { a0 + block_size ≤ length image.now }
    requires second { a1 + block_size ≤ length image.now }
    ensures { result ≡ (both_stand && same (block image.now a0) (block image.now a1)) }
{
    both_stand && copies::same_blocks(image, a0, a1)
}
