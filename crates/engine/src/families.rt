// The families of the weak sequences: bit s of a family says that some live attempt expects just the cells s.
// A set that becomes empty stays as bit 0: its attempt is broken.
ghost use Rattle.std.specs.Prelude.{ℕ, ◌+◌, ◌*◌, ◌<◌, ◌≤◌, ◌≡◌, get_or, length};
ghost use Rattle.engine.specs.Families.{leads_in, Moved};
ghost use Rattle.engine.specs.FamilySteps.{Lacks, Without, Spread, Led, Leads, set_of, threes, image_of, image_by, Walked, Stepped, OneMoved};

use crate::weak_uses::Uses;

// Of each cell, the sets without it.
const MASKS: [u64; 6] = [
    0x5555555555555555,
    0x3333333333333333,
    0x0f0f0f0f0f0f0f0f,
    0x00ff00ff00ff00ff,
    0x0000ffff0000ffff,
    0x00000000ffffffff,
];

// The sets of a family that hold none of three cells of ends, those from `first` on. Mostly none of the three ends.
fn without_three(family: u64, ends: u8, first: u8) -> u64
    requires { first ≤ 3 }
    ensures { (whole : ℕ) → Lacks whole ends first family → Lacks whole ends (first + 3) result }
{
    if (ends >> first) % 8 == 0 {
        return family;
    }
    let mut left = family;
    for cell in first..first + 3 {
        if words::bit(ends as u64, cell) {
            left &= MASKS[cell as usize];
        }
    }
    left
}

// The sets of a family that hold no cell of ends.
fn without(family: u64, ends: u8) -> u64
    ensures { Without family ends result }
{
    without_three(without_three(family, ends, 0), ends, 3)
}

// Bits that stand seven places apart: times a number below 128 they are its copies, and bit l of it stands at 8 * l.
const SEVEN_APART: u64 = 0x0002040810204081;

// The lowest bit of each byte.
const LOWEST_OF_EACH: u64 = 0x0101010101010101;

// Byte l of the result is bit l of the lanes, of which there are seven.
fn spread(lanes: u8) -> u64
    ensures { Spread lanes result }
{
    ((lanes % 128) as u64) * SEVEN_APART & LOWEST_OF_EACH
}

// The cell q of weak sequence w, added to each lane that leads to it.
fn led(w: u8, q: u8, leads: &[u8; 256]) -> u64
    requires { (w < 32) × (q < 8) }
    ensures { Led (get_or leads.now (8 * w + q) 0) q result }
{
    let p = (8 * w + q) as usize;
    spread(leads[p]) << q
}

// Byte l: the cells that lane l leads to.
fn turned(w: u8, leads: &[u8; 256]) -> u64
    requires { w < 32 }
    ensures { Leads (leads_in leads.now w) result }
{
    let mut sets = 0;
    for q in 0..6 {
        sets |= led(w, q, leads);
    }
    sets
}

// The set that lane l leads to.
fn set(sets: u64, l: u8) -> u8
    requires { l < 8 }
    ensures { result ≡ set_of sets l }
{
    ((sets >> (8 * l)) % 64) as u8
}

// Where the sets of three cells lead that lead to x, y, z. The two tables are filled in place and stand apart: of arrays by value, or in one struct, the
// compiler makes vectors, and a family costs 10 to 50 instructions more.
fn images(x: u8, y: u8, z: u8, to: &mut [u8; 8])
    ensures { to.new ≡ threes x y z }
{
    to[0] = 0;
    to[1] = x;
    to[2] = y;
    to[3] = y | x;
    to[4] = z;
    to[5] = z | x;
    to[6] = z | y;
    to[7] = z | (y | x);
}

// Where a set leads, by its cells 0 to 2 and its cells 3 to 5.
fn image(p: u8, low: &[u8; 8], high: &[u8; 8]) -> u8
    ensures { result ≡ image_of low.now high.now p }
{
    high[(p / 8 % 8) as usize] | low[(p % 8) as usize]
}

// Every set of a family moved.
fn walked(family: u64, low: &[u8; 8], high: &[u8; 8]) -> u64
    ensures { Walked (image_of low.now high.now) family result }
{
    let mut next = 0;
    for p in words::Members(family) {
        next = words::with_bit(next, image(p, low, high), true);
    }
    next
}

fn moved(family: u64, sets: u64) -> u64
    ensures { Walked (image_by sets) family result }
{
    if family == 0 {
        return 0;
    }
    let mut low = [0; 8];
    let mut high = [0; 8];
    images(set(sets, 0), set(sets, 1), set(sets, 2), &mut low);
    images(set(sets, 3), set(sets, 4), set(sets, 5), &mut high);
    walked(family, &low, &high)
}

// A family after a letter: top has the lanes that end, and bit 7 where an attempt starts.
fn family(old: u64, sets: u64, top: u8) -> u64
    ensures { Stepped old sets top result }
{
    let next = moved(without(old, top), sets);
    words::with_bit(next, set(sets, 6), top & 192 == 128)
}

// Moves the family w; answers all, with the sets that are left of it.
fn one(w: u8, all: u64, families: &mut [u64; 32], uses: &Uses) -> u64
    requires { w < 32 }
    ensures { OneMoved w all uses.now.tops uses.now.leads families.old families.new result }
{
    let i = w as usize;
    let old = families[i];
    let top = uses.tops[i];
    if old == 0 && top < 128 {
        return all;
    }
    let next = family(old, turned(w, &uses.leads), top);
    families[i] = next;
    all | next
}

// Moves the families of the weak sequences that were met; answers all sets that are left.
pub(crate) fn families(uses: &Uses, families: &mut [u64; 32]) -> u64
    ensures { Moved uses.now.met uses.now.tops uses.now.leads families.old families.new result }
{
    let mut all = 0;
    for w in 0..uses.met {
        all = one(w, all, &mut *families, uses);
    }
    all
}
