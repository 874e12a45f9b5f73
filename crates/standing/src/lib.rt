// How all properties of a table stand together: refused before all, then broken, then pending; settled only if all are.

#![tactic(auto)]

ghost use Rattle.std.specs.Prelude.{◌≡◌};
ghost use Rattle.standing.specs.Standing.{status_of};
ghost use Rattle.standing.specs.Adding.{stands_as, with_answer};

use monitor::Verdict;
use table::Refusal;

// The greater is told before the smaller.
#[derive(Clone, Copy, PartialEq, Eq, PartialOrd, Ord)]
pub enum Standing {
    Settled,
    Pending,
    Broken,
    Refused(Refusal),
}

// How a property stands alone.
impl From<Verdict> for Standing {
    ghost from_gives = { λ verdict standing. standing ≡ stands_as verdict };

    fn from(verdict: Verdict) -> Standing {
        match verdict {
            Verdict::Broken(_) => Standing::Broken,
            Verdict::Settled(_) => Standing::Settled,
            Verdict::Pending(_) => Standing::Pending,
        }
    }
}

// The exit status of a command that judged: 0 only if every property is settled.
pub fn status(standing: Standing) -> u32
    ensures { result ≡ status_of standing }
{
    match standing {
        Standing::Settled => 0,
        Standing::Broken => 1,
        Standing::Pending => 3,
        Standing::Refused(_) => 4,
    }
}

// The standing of some properties and one more.
pub fn with_answer(standing: Standing, answer: Result<Verdict, Refusal>) -> Standing
    ensures { result ≡ with_answer standing answer }
{
    match answer {
        Err(refusal) => Standing::Refused(refusal),
        Ok(verdict) => standing.max(Standing::from(verdict)),
    }
}
