// What a part of a left side does on this letter, and how it is used: a few flags of a byte, since all attempts are merged.
ghost use Rattle.std.specs.Prelude.{◌≡◌, ◌==◌, true, ℕ};
ghost use Rattle.std.specs.Int.Bits.{bit_and};
ghost use Rattle.lanes.specs.UpPass.{Part, then_part, fuse_part, alt_part, loop_part};
ghost use Rattle.lanes.specs.Uses.{Use, ended_lanes, loop_use};
ghost use Rattle.engine.specs.Sides.{one_if, side_code, use_code};
ghost use Rattle.engine.specs.SideSteps.{has, Right};

use crate::bits::only_if;
use std::marker::Model;

// What a part does. Contracts see its number: `side_code` of the part that it stands for.
#[derive(Clone, Copy, PartialEq, Eq)]
pub(crate) struct SidePart(u8);

impl Model for SidePart {
    ghost Value = { ℕ };

    ghost view = { λ p. p.0 };

    ghost inverse = { λ p. record { 0 = p } };
}

// How a part is used; no macro writes the `impl` for both, since the gate refuses one. Contracts see its number: `use_code` of the use that it stands for.
#[derive(Clone, Copy, PartialEq, Eq)]
pub(crate) struct SideUse(u8);

impl Model for SideUse {
    ghost Value = { ℕ };

    ghost view = { λ u. u.0 };

    ghost inverse = { λ u. record { 0 = u } };
}

impl SidePart {
    // Entered now it ends now.
    pub(crate) const EARLY: u8 = 1;

    // An attempt under way ends it.
    pub(crate) const ENDS: u8 = 2;

    // It can be empty.
    pub(crate) const EMPTY: u8 = 4;

    // All ways to end.
    const ENDINGS: u8 = SidePart::EARLY | SidePart::ENDS;

    pub(crate) const NONE: SidePart = SidePart(0);

    // A cell where nothing is expected.
    pub(crate) fn cell(holds: bool) -> SidePart
        ensures { result ≡ one_if holds 1 }
    {
        SidePart(only_if(holds, SidePart::EARLY))
    }

    // An expected cell.
    pub(crate) fn expected(holds: bool) -> SidePart
        ensures { result ≡ one_if holds 3 }
    {
        SidePart(only_if(holds, SidePart::ENDINGS))
    }

    pub(crate) fn has(self, flag: u8) -> bool
        ensures { result ≡ has flag self }
    {
        self.0 & flag != 0
    }

    // Whether an attempt under way ends it and it cannot be empty.
    pub(crate) fn just_ends(self) -> bool
        ensures { result ≡ bit_and self 6 == 2 }
    {
        self.0 & (SidePart::ENDS | SidePart::EMPTY) == SidePart::ENDS
    }

    // a ; b: it ends in b, or in a where b can be empty. Mostly neither can be.
    pub(crate) fn then(self, b: SidePart) -> SidePart
        ensures { (x y : Part) → self ≡ side_code x → b ≡ side_code y → result ≡ side_code (then_part x y) }
    {
        if (self.0 | b.0) & SidePart::EMPTY == 0 {
            return SidePart(b.0 & SidePart::ENDS);
        }
        let in_b = b.0 & (SidePart::ENDS | (self.0 & SidePart::EMPTY) >> 2);
        let in_a = only_if(b.has(SidePart::EMPTY), self.0 & SidePart::ENDINGS);
        SidePart(in_b | in_a | (self.0 & b.0 & SidePart::EMPTY))
    }

    // a ; b, where b is an expected cell.
    pub(crate) fn then_expected(self, holds: bool) -> SidePart
        ensures { (x y : Part) → self ≡ side_code x → one_if holds 3 ≡ side_code y → result ≡ side_code (then_part x y) }
    {
        SidePart(only_if(holds, SidePart::ENDS | (self.0 & SidePart::EMPTY) >> 2))
    }

    // a : b
    pub(crate) fn fuse(self, b: SidePart) -> SidePart
        ensures { (x y : Part) → self ≡ side_code x → b ≡ side_code y → result ≡ side_code (fuse_part x y) }
    {
        let at_once = only_if(b.has(SidePart::EARLY), self.0 & SidePart::ENDINGS);
        SidePart((b.0 & SidePart::ENDS) | at_once)
    }

    // a | b
    pub(crate) fn or(self, b: SidePart) -> SidePart
        ensures { (x y : Part) → self ≡ side_code x → b ≡ side_code y → result ≡ side_code (alt_part x y) }
    {
        SidePart(self.0 | b.0)
    }

    // a[*]
    pub(crate) fn star(self) -> SidePart
        ensures { (x : Part) → self ≡ side_code x → result ≡ side_code (loop_part true x) }
    {
        SidePart(self.0 | SidePart::EMPTY)
    }
}

impl SideUse {
    // It is entered now.
    const NOW: u8 = 1;

    // It is entered next.
    const NEXT: u8 = 2;

    pub(crate) const NONE: SideUse = SideUse(0);

    pub(crate) const LATER: SideUse = SideUse(SideUse::NEXT);

    pub(crate) fn now_if(on: bool) -> SideUse
        ensures { result ≡ one_if on 1 }
    {
        SideUse(only_if(on, SideUse::NOW))
    }

    pub(crate) fn is_next(self) -> bool
        ensures { result ≡ has 2 self }
    {
        self.0 & SideUse::NEXT != 0
    }

    // NEXT where a ends now.
    fn ended(self, a: SidePart) -> u8
        ensures { (x : Part) (w : Use) → w.owner ≡ 64 → a ≡ side_code x → self ≡ use_code w → result ≡ one_if (ended_lanes x w 7) 2 }
    {
        (a.0 | (a.0 & self.0 & SideUse::NOW) << 1) & SideUse::NEXT
    }

    // The use of b in a ; b.
    pub(crate) fn after(self, a: SidePart) -> SideUse
        ensures { Right 16 a self result }
    {
        SideUse(self.ended(a) | only_if(a.has(SidePart::EMPTY), self.0))
    }

    // The use of b in a : b.
    pub(crate) fn at_end(self, a: SidePart) -> SideUse
        ensures { Right 17 a self result }
    {
        SideUse(self.ended(a) >> 1)
    }

    // The use of a in a loop.
    pub(crate) fn again(self, a: SidePart) -> SideUse
        ensures { (x : Part) (w : Use) → w.owner ≡ 64 → a ≡ side_code x → self ≡ use_code w → result ≡ use_code (loop_use x w) }
    {
        SideUse(self.0 | self.ended(a))
    }
}
