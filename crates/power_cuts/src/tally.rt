// Counts of what was read after cuts.

#[derive(Clone, Copy, Default)]
pub struct Tally {
    pub cuts: u64,
    pub old: u64,
    pub new: u64,
    pub neither: u64,
    pub repaired: u64,
    pub right: u64,
}

fn one_more(n: u64, test: bool) -> u64 {
    n.wrapping_add(u64::from(test))
}

impl Tally {
    // One cut more; where the old reading is also the new one it counts as old.
    pub fn counted(self, old: bool, new: bool, repaired: bool, right: bool) -> Tally {
        Tally {
            cuts: one_more(self.cuts, true),
            old: one_more(self.old, old),
            new: one_more(self.new, new && !old),
            neither: one_more(self.neither, !(old || new)),
            repaired: one_more(self.repaired, repaired),
            right: one_more(self.right, right),
        }
    }
}
