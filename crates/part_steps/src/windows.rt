// Of some steps those from one on, at most so many.
ghost use Rattle.std.specs.Prelude.{◌≡◌};
ghost use Rattle.part_steps.specs.Inner.Windows.{beyond};

#[derive(Clone, Copy, PartialEq, Eq, Debug)]
pub struct Window {
    pub from: usize,
    pub n: usize,
}

impl Window {
    // What of it lies beyond so many steps.
    #[tactic(auto, unfolding(crate::specs::Inner::Windows::beyond))]
    pub fn beyond(self, size: usize) -> Window
        ensures { result ≡ beyond size self }
    {
        Window {
            from: self.from.saturating_sub(size),
            n: self.n.saturating_sub(size.saturating_sub(self.from)),
        }
    }
}
