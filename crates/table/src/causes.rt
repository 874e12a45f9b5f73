// Why a table, a trace or a call is refused: the causes of document 01, each with its number.
ghost use Rattle.std.specs.Prelude.{◌≡◌};
ghost use Rattle.table.specs.Causes.{number_of, refusal_of};

use crate::Refusal;

// The causes, by the names that the C header gives them.
#[derive(Clone, Copy, PartialEq, Eq)]
pub enum Cause {
    TableShort = 1,
    TableVersion = 2,
    TableCounts = 3,
    TableLength = 4,
    KindUnknown = 5,
    KindStrong = 6,
    FieldWrong = 7,
    ClassWrong = 8,
    RootWrong = 9,
    UsedNotOnce = 10,
    CellsTooMany = 11,
    PropertyUnknown = 12,
    SignalUndeclared = 13,
    CyclesTooMany = 14,
    TraceWrong = 15,
}

impl Cause {
    pub fn number(self) -> u8
        ensures { result ≡ number_of self }
    {
        self as u8
    }

    // The refusal for this cause at a place.
    pub fn at(self, place: u32) -> Refusal
        ensures { result ≡ refusal_of self place }
    {
        Refusal {
            number: self.number(),
            place,
        }
    }
}
