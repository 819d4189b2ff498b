// What combining answers, as C is told it.
ghost use Rattle.std.specs.Prelude.{◌≡◌, ℕ, List};
ghost use Rattle.combine.specs.Combine.{told};
ghost use Rattle.capi.specs.Combined.{in_c, as_numbers};

use crate::CombineReply;
use calls::Refusal;
use combine::Combined;

impl From<Result<Combined, Refusal>> for CombineReply {
    ghost from_gives = { λ answer reply. (area : List ℕ) → in_c reply area ≡ as_numbers (told answer area) };

    #[tactic(auto, unfolding(combine::specs::Combine::told))]
    fn from(answer: Result<Combined, Refusal>) -> CombineReply {
        match answer {
            Ok(Combined::Next(length)) => CombineReply {
                number: 0,
                kind: 1,
                length,
            },
            Ok(Combined::List(length)) => CombineReply {
                number: 0,
                kind: 2,
                length,
            },
            Ok(Combined::Ended) => CombineReply {
                number: 0,
                kind: 3,
                length: 0,
            },
            Err(refusal) => CombineReply {
                number: refusal.number(),
                kind: 0,
                length: 0,
            },
        }
    }
}
