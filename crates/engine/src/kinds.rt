// The numbers of the kinds of rows, as document 01 has them: Booleans from 1, sequences from 16, properties from 32.
// They are no enum: to decode one at each row costs more than the controller's goals leave.

pub(crate) const TRUE: u8 = 1;

pub(crate) const FALSE: u8 = 2;

pub(crate) const SIGNAL: u8 = 3;

pub(crate) const NOT: u8 = 4;

pub(crate) const AND: u8 = 5;

// a ; b
pub(crate) const THEN: u8 = 16;

// a : b
pub(crate) const FUSE: u8 = 17;

// a | b, the last sequence of two operands
pub(crate) const ALT: u8 = 18;

// a[*]
pub(crate) const STAR: u8 = 19;

// a[+], the last of the sequences
pub(crate) const PLUS: u8 = 20;

// weak, the first of the properties
pub(crate) const WEAK: u8 = 32;

pub(crate) const BOTH: u8 = 33;

pub(crate) const NEXT: u8 = 34;

pub(crate) const IF: u8 = 35;

pub(crate) const IMPLIES: u8 = 36;

pub(crate) const OR: u8 = 37;

pub(crate) const ALWAYS: u8 = 38;

pub(crate) const UNTIL: u8 = 39;

// |->
pub(crate) const SUFFIX: u8 = 40;

pub(crate) const NEVER: u8 = 42;
