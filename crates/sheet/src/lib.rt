// The reader of campaign sheets, which gives for any bytes either one refusal or what the sheet says, and the decoder
// of a sheet that was read. specs/Reading.antt of `format` is the definition that the reader is proved to equal.
//
// The modules follow the data: numbers out of bytes, the header, the chain of records, one record as a step, what it
// asks of the chambers, the search for a faulty step, the reader, and the steps for the planner. Nothing here is an
// open entry of the library.
#![tactic(auto)]

pub mod chain;
pub mod decode;
pub mod head;
pub mod iter;
pub mod numbers;
pub mod open;
pub mod parts;
pub mod record;
pub mod steps;

ghost use Rattle.std.specs.Prelude.{◌≡◌};
ghost use Rattle.format.specs.Answer.{Given};
ghost use Rattle.format.specs.Reading.{steps_of};
ghost use Rattle.format.specs.Stages.{summary_read};

use format::Summary;
use iter::Steps;
use record::Records;

// A sheet that passed the reader: the lent bytes, and what they say but for the steps.
#[derive(Clone, Copy)]
pub struct Sheet<'a> {
    pub bytes: &'a [u8],
    pub summary: Summary,
    ghost passed: { summary_read bytes.now ≡ Given summary },
}

impl<'a> Sheet<'a> {
    // The letters that a sheet begins with.
    pub const LETTERS: [u8; 4] = *b"WARM";

    // The editions of the format.
    pub const FIRST_EDITION: u8 = 1;

    pub const SECOND_EDITION: u8 = 2;
    // Bytes of the header, and of a record of the first edition and of the second.
    pub const HEADER_SIZE: usize = 24;

    pub const RECORD_SIZE: usize = 24;

    pub const CHAMBER_RECORD_SIZE: usize = 32;
    // The most units and the most records, and how many chambers there are.
    pub const UNIT_LIMIT: u8 = 64;

    pub const RECORD_LIMIT: usize = 256;

    pub const CHAMBERS: usize = 4;
    // Where the fields of the header lie.
    pub const EDITION_AT: usize = 4;

    pub const UNITS_AT: usize = 5;

    pub const RECORDS_AT: usize = 6;

    pub const FIRST_AT: usize = 8;

    pub const BOUND_AT: usize = 10;

    pub const CHAMBERS_AT: usize = 12;

    pub const START_AT: usize = 16;
    // And those of a record, of which the first is the lower set. Some lie elsewhere in the second edition.
    pub const UPPER_AT: usize = 8;

    pub const LEAST_AT: usize = 16;

    pub const GREATEST_AT: usize = 17;

    pub const CHAMBER_GREATEST_AT: usize = 20;

    pub const NEXT_AT: usize = 18;

    pub const CHAMBER_NEXT_AT: usize = 24;

    pub const RESERVED_AT: usize = 26;

    pub const TAG_AT: usize = 20;

    pub const CHAMBER_TAG_AT: usize = 28;
    // Bytes of the longest sheet, which is one of the second edition.
    pub const LONGEST: usize = Sheet::HEADER_SIZE
        + Sheet::CHAMBER_RECORD_SIZE * Sheet::RECORD_LIMIT;

    // Its steps, one after the other.
    pub fn steps(self) -> Steps<'a>
        ensures { result ≡ steps_of self.entry.bytes.now }
    {
        Steps::of(Records::of(self.bytes), self.summary.steps as usize)
    }
}
