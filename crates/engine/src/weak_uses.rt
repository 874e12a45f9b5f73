// The uses of the rows of weak sequences, down the rows: which lanes enter each part, and so lead to each cell. Lanes 0 to 5 are cells, 6 an attempt that begins.
ghost use Rattle.std.specs.Prelude.{ℕ, ◌≡◌, ◌+◌, ◌%◌, ◌<◌, ◌≤◌};
ghost use Rattle.engine.specs.Reads.{kind_of, Within};
ghost use Rattle.engine.specs.WeakUses.{Ends, ThenUse, FuseUse, RightUse, LeftUse, WholeUse, Tops};

use crate::bits::only_if;
use crate::kinds::{ALT, FUSE, THEN, WEAK};
use crate::row::HeldRow;
use crate::weak_parts::{EARLY, EMPTY, ENDS, LANES, Part, Parts, shifted};

// In the lanes of a use: lane 6, an attempt that begins.
const BEGINNING: u8 = 64;

// In a top: an attempt begins.
const BEGINS: u8 = 128;

// How a part is used: the place of its first cell (8 times the number of its weak sequence, and the lane); the lanes that enter it now, and next.
#[derive(Clone, Copy)]
pub struct Use {
    pub place: u8,
    pub into: u8,
    pub go: u8,
}

impl Use {
    pub(crate) const NONE: Use = Use {
        place: 0,
        into: 0,
        go: 0,
    };
}

// What the pass down the rows leaves: the use of each row of a sequence; the lanes that lead to the cell at each place; the lanes that end each weak
// sequence, with bit 7 where an attempt begins; how many weak sequences were met, of which there are no more than families.
#[derive(Drop)]
pub struct Uses {
    pub of: [Use; 64],
    pub met: u8,
    pub tops: [u8; 32],
    pub leads: [u8; 256],
    ghost few: { met ≤ 32 },
}

// The lanes that end a now.
fn ended(a: u8, used: Use) -> u8
    ensures { Ends a used result }
{
    shifted(a, used.place) | only_if(a & EARLY != 0, used.into)
}

fn place_after(place: u8, count: u8) -> u8
    ensures { result ≡ (place + count) % 256 }
{
    (((place as u16) + (count as u16)) % 256) as u8
}

// The use of b in a ; b, where mostly a can neither be empty nor end at once.
fn then_use(a: Part, used: Use) -> Use
    ensures { ThenUse a used result }
{
    if a.act < EARLY {
        return Use {
            place: place_after(used.place, a.count),
            into: 0,
            go: shifted(a.act, used.place),
        };
    }
    let through = a.act & EMPTY != 0;
    Use {
        place: place_after(used.place, a.count),
        into: only_if(through, used.into),
        go: ended(a.act, used) | only_if(through, used.go),
    }
}

// The use of b in a : b
fn fuse_use(a: Part, used: Use) -> Use
    ensures { FuseUse a used result }
{
    Use {
        place: place_after(used.place, a.count),
        into: ended(a.act, used),
        go: 0,
    }
}

// The use of b in a ; b, a : b, a | b
fn right(kind: u8, a: Part, used: Use) -> Use
    ensures { RightUse kind a used result }
{
    match kind {
        THEN => then_use(a, used),
        FUSE => fuse_use(a, used),
        _ => Use {
            place: place_after(used.place, a.count),
            into: used.into,
            go: used.go,
        },
    }
}

// The use of the first operand.
fn left(kind: u8, a: Part, used: Use) -> Use
    ensures { LeftUse kind a used result }
{
    if kind <= ALT {
        return used;
    }
    Use {
        place: used.place,
        into: used.into,
        go: used.go | ended(a.act, used),
    }
}

// The use of weak sequence w: an attempt that begins enters it now.
fn whole(w: u8, begin: bool) -> Use
    ensures { WholeUse w begin result }
{
    Use {
        place: 8 * (w % 32),
        into: only_if(begin, BEGINNING),
        go: 0,
    }
}

// The lanes that end a weak sequence, and bit 7 where an attempt begins.
pub(crate) fn top(act: u8, begin: bool) -> u8
    ensures { Tops act begin result }
{
    if begin {
        (act & ENDS) | BEGINS
    } else {
        act & LANES
    }
}

impl Uses {
    ghost use Rattle.engine.specs.WeakHanded.{use_at, Blank, Handed, Met};
    ghost use Rattle.engine.specs.WeakPass.{RowDone, WeaksDown};

    // As of `ByRow`; a type within this one is no plainer.
    fn at(&self, n: u8) -> Use
        ensures { result ≡ use_at self.now (n % 64) }
    {
        self.of[(n as usize) % 64]
    }

    // Hands a use to operand v: a cell notes the lanes that lead to it; a row keeps its use.
    fn hand(&mut self, v: u8, used: Use, booleans: u64)
        ensures { Handed booleans v used self.old self.new }
    {
        if words::bit(booleans, v) {
            self.leads[used.place as usize] |= used.go;
        } else {
            self.of[(v as usize) % 64] = used;
        }
    }

    // Meets a weak sequence, with the lanes that end it: its number.
    fn meet(&mut self, top: u8) -> u8
        ensures { Met top result self.old self.new }
    {
        let w = self.met % 32;
        self.tops[w as usize] = top;
        self.met = w + 1;
        w
    }

    // A row of a sequence, of this kind.
    fn inner(&mut self, row: HeldRow<'_>, kind: u8, booleans: u64, parts: &Parts)
        requires kind_is { kind ≡ kind_of row.table.now row.n }
        requires not_weak { kind < 32 }
        ensures { (begin : ℕ) → RowDone row.entry.table.now row.entry.n booleans begin parts.now self.old self.new }
    {
        let used = self.at(row.n);
        let v = row.a();
        let a = parts.at(v);
        self.hand(v, left(kind, a, used), booleans);
        if kind <= ALT {
            self.hand(row.b(), right(kind, a, used), booleans);
        }
    }

    // A weak row.
    fn weak(&mut self, row: HeldRow<'_>, booleans: u64, begin: u64, parts: &Parts)
        requires is_weak { 32 ≤ kind_of row.table.now row.n }
        ensures { RowDone row.entry.table.now row.entry.n booleans begin parts.now self.old self.new }
    {
        let v = row.a();
        let on = words::bit(begin, row.n);
        let w = self.meet(top(parts.at(v).act, on));
        self.hand(v, whole(w, on), booleans);
    }

    // A row downwards. Most are a ; b: with the kind as a constant they are compiled apart, and a cycle of nine weak sequences takes an eighth less.
    fn down(&mut self, row: HeldRow<'_>, booleans: u64, begin: u64, parts: &Parts)
        ensures { RowDone row.entry.table.now row.entry.n booleans begin parts.now self.old self.new }
    {
        let kind = row.kind();
        if kind == THEN {
            self.inner(row, THEN, booleans, parts);
        } else if kind < WEAK {
            self.inner(row, kind, booleans, parts);
        } else {
            self.weak(row, booleans, begin, parts);
        }
    }

    // All rows, from the highest.
    pub(crate) fn downward(
        &mut self,
        table: &[u8],
        weaks: u64,
        booleans: u64,
        begin: u64,
        parts: &Parts,
    )
        requires { Within table.now weaks }
        ensures { WeaksDown table.now booleans weaks begin parts.now self.old self.new }
    {
        for n in words::Members(weaks).rev() {
            self.down(HeldRow { table, n }, booleans, begin, parts);
        }
    }
}
