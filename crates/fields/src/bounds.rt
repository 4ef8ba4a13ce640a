// Bounds and parts, by sums that never wrap.
ghost use Rattle.std.specs.Prelude.{◌≡◌, ◌+◌, ◌≤◌, leb};
ghost use Rattle.std.specs.Option.{IfSome};
ghost use Rattle.fields.specs.Bounds.{part};

use std::ops::Range;

// A range ends at a bound or before it: exact, where start + size would wrap.
pub fn ends_by(start: u64, size: u64, bound: u64) -> bool
    ensures { result ≡ leb (start + size) bound }
{
    if bound < start {
        return false;
    }
    size <= bound - start
}

// Where so many bytes from an address on lie in a whole, if they lie inside.
#[tactic(auto, unfolding(crate::specs::Bounds::part))]
pub fn part_of(whole: usize, at: usize, n: usize) -> Option<Range<usize>>
    ensures part { result ≡ part whole at n }
    ensures inside { IfSome result (λ r. (r.start ≤ r.end) × (r.end ≤ whole)) }
{
    let end = at.checked_add(n)?;
    if end <= whole { Some(at..end) } else { None }
}
