// Which rows the bytes hold.
ghost use Rattle.std.specs.Prelude.{◌≡◌};
ghost use Rattle.psl.specs.Tells.{Tells};
ghost use Rattle.engine.specs.Reads.{Within, HeldRows};

// The rows that the bytes hold, of those below 64.
pub(crate) fn held(table: &[u8]) -> u64
    ensures { HeldRows table.now result }
{
    let bytes = table.len();
    if bytes < 16 {
        return 0;
    }
    if bytes < 272 {
        (1u64 << ((bytes - 16) / 4)) - 1
    } else {
        u64::MAX
    }
}

// Whether the bytes hold the rows of a set. `Within`, which it establishes, is asked where a pass begins: one call each, for which a struct is no plainer.
pub(crate) fn covers(table: &[u8], rows: u64) -> bool
    ensures { Tells (Within table.now rows) result }
{
    rows & !held(table) == 0
}
