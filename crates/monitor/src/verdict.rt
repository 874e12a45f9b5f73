// A verdict of a property, and what is answered to a sample.
ghost use Rattle.std.specs.Prelude.{◌≡◌, Some};
ghost use Rattle.psl.specs.Verdicts.{judged};
ghost use Rattle.monitor.specs.Follows.{verdict_of, going_of};
ghost use Rattle.monitor.specs.Shown.{verdict_text};

use std::fmt;

// Broken or settled with its cycle, or pending with the cycles read.
#[derive(Clone, Copy, PartialEq, Eq)]
pub enum Verdict {
    Broken(u32),
    Settled(u32),
    Pending(u32),
}

impl Verdict {
    // The verdict at cycle n.
    pub(crate) fn at(broken: bool, quiet: bool, n: u32) -> Verdict
        ensures { verdict_of result ≡ judged broken quiet n }
    {
        if broken {
            return Verdict::Broken(n);
        }
        if quiet {
            return Verdict::Settled(n);
        }
        Verdict::Pending(n)
    }

    // The cycles read, of a property that goes on.
    pub(crate) fn pending(self) -> Option<u32>
        ensures { result ≡ going_of self }
    {
        match self {
            Verdict::Broken(_) | Verdict::Settled(_) => None,
            Verdict::Pending(cycles) => Some(cycles),
        }
    }
}

impl fmt::Display for Verdict {
    ghost output = { λ verdict. Some (verdict_text verdict) };

    fn fmt<W: fmt::Write>(&self, f: &mut fmt::Formatter<W>) -> fmt::Result {
        match *self {
            Verdict::Broken(cycle) => write!(f, "broken {cycle}"),
            Verdict::Settled(cycle) => write!(f, "settled {cycle}"),
            Verdict::Pending(cycles) => write!(f, "pending {cycles}"),
        }
    }
}
