// The lines of a listing.
ghost use Rattle.std.specs.Prelude.{◌++◌, ◌+◌, ◌*◌, ◌≤◌, ◌<◌, length};
ghost use Rattle.format.specs.Format.{record_limit};
ghost use Rattle.format.specs.Told.{number_of};
ghost use Rattle.promises.specs.Digits.{decimal};
ghost use Rattle.promises.specs.Listing.{first_line, step_line, step_lines, total_line, refused_line};
ghost use Rattle.listing.specs.Puts.{HasRoom, Puts};
ghost use Rattle.listing.specs.Room.{first_most, step_most, total_most, refused_most};

use super::text::Text;
use format::Refusal;
use units::{difference, size};

// The most bytes of a line of a listing: the first, with three numbers of 32 bits, that of a step, and the last.
pub(crate) const FIRST_LINE: usize = 51;

pub(crate) const STEP_LINE: usize = 24;

pub(crate) const TOTAL_LINE: usize = 17;

impl<'a> Text<'a> {
    // A word and a number.
    pub(crate) fn put_field(&mut self, word: &[u8], x: u32)
        requires { HasRoom self.old (length word.now + length (decimal x)) }
        ensures { Puts (word.now ++ decimal x) self.old self.new }
    {
        self.put(word);
        self.put_decimal(x);
    }

    // "units 3 steps 4 bound 3".
    pub(crate) fn put_first_line(&mut self, units: u32, steps: u32, bound: u32)
        requires { HasRoom self.old first_most }
        ensures line { Puts (first_line units steps bound) self.old self.new }
        ensures upper_bound { self.new.len ≤ self.old.len + first_most }
    {
        self.put_field(b"units ", units);
        self.put_field(b" steps ", steps);
        self.put_field(b" bound ", bound);
        self.put_byte(b'\n');
    }

    // "1 0000000000000001 1": the step, the set that is on and its switches.
    fn put_step_line(&mut self, step: u32, set: u64, many: u32)
        requires step_bound { step < 1000 }
        requires many_bound { many < 100 }
        requires room { HasRoom self.old step_most }
        ensures { Puts (step_line step set many) self.old self.new }
    {
        self.put_decimal(step);
        self.put_byte(b' ');
        self.put_hexadecimal(set, 16);
        self.put_field(b" ", many);
        self.put_byte(b'\n');
    }

    // The lines of all steps of a plan, where `start` is on before it.
    pub(crate) fn put_step_lines(&mut self, start: u64, plan: &[u64])
        requires few { length plan.now ≤ record_limit }
        requires room { HasRoom self.old (step_most * length plan.now) }
        ensures lines { Puts (step_lines 1 start plan.now) self.old self.new }
        ensures upper_bound { self.new.len ≤ self.old.len + step_most * length plan.now }
    {
        let mut before = start;
        for (i, set) in plan.iter().enumerate() {
            let many = size(difference(*set, before));
            self.put_step_line(i as u32 + 1, *set, many);
            before = *set;
        }
    }

    // "total 3".
    pub(crate) fn put_total_line(&mut self, many: u32)
        requires { HasRoom self.old total_most }
        ensures { Puts (total_line many) self.old self.new }
    {
        self.put_field(b"total ", many);
        self.put_byte(b'\n');
    }

    // "refused 9 3": the number and the place.
    fn put_refused_line(&mut self, number: u32, place: u32)
        requires { HasRoom self.old refused_most }
        ensures { Puts (refused_line number place) self.old self.new }
    {
        self.put_field(b"refused ", number);
        self.put_field(b" ", place);
        self.put_byte(b'\n');
    }

    // The line of a refusal.
    pub(crate) fn put_refusal(&mut self, refusal: Refusal)
        requires { HasRoom self.old refused_most }
        ensures { Puts (refused_line (number_of refusal.cause) refusal.place) self.old self.new }
    {
        self.put_refused_line(refusal.cause.number(), refusal.place);
    }
}
