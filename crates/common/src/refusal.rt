// Why an input is refused, by the tables of documents 01 and 02 and, from 30 on, of typed lists; docs/CALLS.md has when.
ghost use Rattle.std.specs.Prelude.{◌≡◌};
ghost use Rattle.common.specs.Refusals.{number_of};

#[derive(Clone, Copy, Debug, PartialEq, Eq)]
pub enum Refusal {
    BadSettings = 1,
    BadTree = 2,
    BadText = 3,
    TooManyNodes = 4,
    TooDeep = 5,
    TooLarge = 6,
    TooShort = 8,
    NoLeaf = 9,
    TooManyPieces = 10,
    NoChild = 11,
    OutsideSheet = 12,
    InMargin = 13,
    TooManyPlaces = 14,
    NotAList = 15,
    TooWide = 16,
    BadRange = 17,
    BadStore = 18,
    NoDraft = 19,
    NoRoom = 20,
    ListTooLong = 30,
    BadCharacter = 31,
    BadEscape = 32,
    OddIndent = 33,
    SecondRoot = 34,
    NoParent = 35,
    ListTooDeep = 36,
    ListTooMany = 37,
    ListTooLarge = 38,
    ListEmpty = 39,
}

impl Refusal {
    // Its number in the tables.
    pub fn number(self) -> u8
        ensures { result ≡ number_of self }
    {
        self as u8
    }
}
