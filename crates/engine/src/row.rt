// A row that the bytes hold, and its fields.
ghost use Rattle.std.specs.Prelude.{◌≡◌, ◌+◌, ◌*◌, ◌<◌, get_or};
ghost use Rattle.engine.specs.Reads.{kind_of, a_of, b_of, c_of, Held};

#[derive(Clone, Copy)]
pub(crate) struct HeldRow<'a> {
    pub(crate) table: &'a [u8],
    pub(crate) n: u8,
    ghost held: { Held table.now n },
}

impl HeldRow<'_> {
    // A byte of the row: 0 its kind, 1 to 3 its fields.
    fn byte<const PLACE: usize>(self) -> u8
        requires { PLACE < 4 }
        ensures { result ≡ get_or self.entry.table.now (16 + 4 * self.entry.n + PLACE) 0 }
    {
        self.table[16 + 4 * (self.n as usize) + PLACE]
    }

    pub(crate) fn kind(self) -> u8
        ensures { result ≡ kind_of self.entry.table.now self.entry.n }
    {
        self.byte::<0>()
    }

    pub(crate) fn a(self) -> u8
        ensures { result ≡ a_of self.entry.table.now self.entry.n }
    {
        self.byte::<1>()
    }

    pub(crate) fn b(self) -> u8
        ensures { result ≡ b_of self.entry.table.now self.entry.n }
    {
        self.byte::<2>()
    }

    pub(crate) fn c(self) -> u8
        ensures { result ≡ c_of self.entry.table.now self.entry.n }
    {
        self.byte::<3>()
    }
}
