// The bytes of a sheet, put where docs/FORMAT.md has them: all numbers and letters here are those of that page, and
// nothing of the library is used.
ghost use Rattle.std.specs.Prelude.{◌≡◌, ◌+◌, ◌*◌, ◌<◌, ◌≤◌, length};
ghost use Rattle.format.specs.Format.{record_limit, sheet_length, longest};
ghost use Rattle.trials.specs.Editions.{is_first};

// The most units and records of a sheet.
pub const UNITS: u8 = 64;

pub const RECORDS: usize = 256;

// Room for the longest sheet, which is of edition 2, and a record more.
pub const ROOM: usize = 24 + 32 * (RECORDS + 1);

// The editions of a sheet.
#[derive(Clone, Copy, Debug, PartialEq, Eq)]
pub enum Edition {
    First = 1,
    Second = 2,
}

impl Edition {
    // How many chambers a record has numbers for, of one byte each.
    fn chambers(self) -> usize
        ensures lower_bound { 0 < result }
        ensures upper_bound { result ≤ 4 }
    {
        match self {
            Edition::First => 1,
            Edition::Second => 4,
        }
    }

    // Where record j begins, from 1 on.
    fn record_at(self, j: usize) -> usize
        requires { j ≤ record_limit }
        ensures { result ≤ 8184 }
    {
        match self {
            Edition::First => 24 * j,
            Edition::Second => (32 * j).saturating_sub(8),
        }
    }

    // The length of a sheet of that many records.
    pub fn length_of(self, records: usize) -> usize
        requires { records ≤ record_limit }
        ensures value { result ≡ sheet_length (is_first self) records }
        ensures upper_bound { result ≤ longest }
    {
        match self {
            Edition::First => 24 * (records + 1),
            Edition::Second => 32 * records + 24,
        }
    }
}

// The numbers of a header but for the number of its first record. In edition 1 there are no sizes of chambers.
#[derive(Clone, Copy, Debug, Default)]
pub struct Head {
    pub units: u8,
    pub records: u16,
    pub bound: u16,
    pub start: u64,
    pub sizes: [u8; 4],
}

// The limits of a step, with a least and a greatest number for each chamber. Edition 1 has those of the first
// chamber alone.
#[derive(Clone, Copy, Debug)]
pub struct Limits {
    pub lower: u64,
    pub upper: u64,
    pub least: [u8; 4],
    pub greatest: [u8; 4],
}

// The bytes of a sheet, with zeros after its last record.
#[derive(Clone, Copy)]
pub struct SheetBytes {
    edition: Edition,
    records: usize,
    bytes: [u8; ROOM],
    ghost records_within: { records ≤ record_limit },
}

impl SheetBytes {
    // A sheet with no step. There is room for the most records, whatever the header says.
    pub fn new(edition: Edition, head: Head) -> SheetBytes {
        let mut sheet = SheetBytes {
            edition,
            records: usize::from(head.records).min(RECORDS),
            bytes: [0; ROOM],
        };
        sheet.put(0, b"WARM");
        sheet.put(4, &[edition as u8, head.units]);
        sheet.put(6, &head.records.to_le_bytes());
        sheet.put(10, &head.bound.to_le_bytes());
        if edition == Edition::Second {
            sheet.put(12, &head.sizes);
        }
        sheet.put(16, &head.start.to_le_bytes());
        sheet
    }

    // Puts bytes at that place.
    fn put(&mut self, at: usize, value: &[u8])
        requires { at + length value.now ≤ ROOM }
        ensures { self.new ≡ record self.old { bytes = self.new.bytes } }
    {
        self.bytes[at..at + value.len()].copy_from_slice(value);
    }

    // Puts the limits of a step into record j.
    pub fn put_limits(&mut self, j: usize, limits: Limits)
        requires { j ≤ record_limit }
        ensures { self.new ≡ record self.old { bytes = self.new.bytes } }
    {
        let at = self.edition.record_at(j);
        let chambers = self.edition.chambers();
        self.put(at, &limits.lower.to_le_bytes());
        self.put(at + 8, &limits.upper.to_le_bytes());
        self.put(at + 16, &limits.least[..chambers]);
        self.put(at + 16 + chambers, &limits.greatest[..chambers]);
    }

    // Puts the number of the record after a record, or of the first record where the holder is 0, for the header.
    pub fn put_link(&mut self, holder: usize, next: u16)
        requires { holder ≤ record_limit }
        ensures { self.new ≡ record self.old { bytes = self.new.bytes } }
    {
        let at = if holder == 0 {
            8
        } else {
            self.edition.record_at(holder) + 16 + 2 * self.edition.chambers()
        };
        self.put(at, &next.to_le_bytes());
    }

    // Puts a number into the bytes of record j of edition 2 that are zero.
    pub fn put_reserved(&mut self, j: usize, value: u16)
        requires { j ≤ record_limit }
    {
        self.put(Edition::Second.record_at(j) + 26, &value.to_le_bytes());
    }

    // Puts a step into each record, in the order of the records, with limits of these kinds in turns.
    pub fn put_steps(&mut self, kinds: &[Limits])
        requires { 0 < length kinds.now }
    {
        for j in 0..self.records {
            self.put_link(j, j as u16 + 1);
            self.put_limits(j + 1, kinds[j % kinds.len()]);
        }
        self.put_link(self.records, 0);
    }

    // The first bytes, as many as that.
    pub fn first(&self, count: usize) -> &[u8]
        requires { count ≤ ROOM }
        ensures { length result.now ≡ count }
    {
        &self.bytes[..count]
    }

    // The whole sheet.
    pub fn whole(&self) -> &[u8]
        ensures { length result.now ≡ sheet_length (is_first self.now.edition) self.now.records }
    {
        self.first(self.edition.length_of(self.records))
    }
}
