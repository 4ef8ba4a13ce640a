// An answer as the number that is returned: 0, or that of the refusal.
ghost use Rattle.std.specs.Prelude.{◌≡◌};
ghost use Rattle.codes.specs.Answered.{number, kept};

use rules::Refusal;

// What is given goes into the lent place.
#[tactic(auto, unfolding(crate::specs::Answered::number, crate::specs::Answered::kept))]
pub fn told(answer: Result<usize, Refusal>, count: &mut usize) -> u8
    ensures returned { result ≡ number answer }
    ensures left { count.new ≡ kept (λ n. n) answer count.old }
{
    match answer {
        Ok(n) => {
            *count = n;
            0
        }
        Err(why) => why.number(),
    }
}
