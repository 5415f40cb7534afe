// The campaign sheet: its layout, and what any bytes say, either one refusal or a campaign. docs/FORMAT.md describes
// the format in words; specs/Reading.antt is the definition that the reader is proved to equal. proofs/ has the laws
// on it. The types are those of the reader.
#![tactic(auto)]

ghost use Rattle.std.specs.Prelude.{◌≡◌, ◌<◌, ◌^◌};
ghost use Rattle.format.specs.Told.{number_of};

// The causes of refusals, with their numbers in the refusal table.
#[derive(Clone, Copy, Debug, PartialEq, Eq)]
pub enum Cause {
    Length = 1,
    Form = 2,
    Header = 3,
    RecordNumber = 4,
    Loop = 5,
    UpperSet = 6,
    NoSet = 7,
    ShortOutput = 8,
    Bound = 9,
    PlanLength = 10,
    Limits = 11,
    NoRoom = 12,
    ChamberSizes = 13,
    ReservedBytes = 14,
    OtherChambers = 15,
}

impl Cause {
    // The number in the refusal table.
    pub fn number(self) -> u32
        ensures { result ≡ number_of self }
    {
        self as u32
    }
}

// What is sent back in place of a reply: a cause of the refusal table, and the place it goes with.
#[derive(Clone, Copy, Debug, PartialEq, Eq)]
pub struct Refusal {
    pub cause: Cause,
    pub place: u32,
}

impl Refusal {
    // The refusal at a byte of the sheet.
    pub fn at(cause: Cause, byte: usize) -> Refusal
        requires { byte < 2 ^ 32 }
        ensures { result ≡ record { cause = cause; place = byte } }
    {
        Refusal {
            cause,
            place: byte as u32,
        }
    }
}

// How many units each chamber has. The chambers have names and not numbers, since refusal 15 and the theorems on
// edition 1 speak of the first.
#[derive(Clone, Copy)]
pub struct ChamberSizes {
    pub first: u8,
    pub second: u8,
    pub third: u8,
    pub fourth: u8,
}

// The numbers of a header that has passed its checks. In a sheet of edition 1 all units are in the first chamber.
#[derive(Clone, Copy)]
pub struct Header {
    pub units: u32,
    pub records: u32,
    pub bound: u32,
    pub start: u64,
    pub sizes: ChamberSizes,
}

// What a sheet says, but for its steps themselves: how many they are (n, in docs/FORMAT.md) stands for them.
#[derive(Clone, Copy)]
pub struct Summary {
    pub header: Header,
    pub steps: u32,
}

// One step of the campaign as a sheet of either edition has it: a record without its place in the chain, with a least
// and a greatest number for each chamber. In edition 1 these are the record's two numbers for the first chamber, and
// zeros for the others. `reserved` has the bytes of the record that are zero: it is 0 in each step that passes the
// checks.
#[repr(C)]
#[derive(Clone, Copy)]
pub struct ChamberStep {
    pub lower: u64,
    pub upper: u64,
    pub least: [u8; 4],
    pub greatest: [u8; 4],
    pub tag: u32,
    pub reserved: u32,
}

// One step as it is written, in edition 1, with one least and one greatest number.
#[repr(C)]
#[derive(Clone, Copy)]
pub struct Step {
    pub lower: u64,
    pub upper: u64,
    pub least: u8,
    pub greatest: u8,
    pub tag: u32,
}
