// The sizes of the steps of a sheet, a line for each.
ghost use Rattle.std.specs.Prelude.{◌*◌, ◌<◌};
ghost use Rattle.promises.specs.Listing.{sizes_line, sizes_listing};
ghost use Rattle.listing.specs.Puts.{HasRoom, Puts};
ghost use Rattle.listing.specs.Room.{sizes_most, TwoDigits};

use super::text::Text;
use sheet::Sheet;
use sheet::parts::{deal, sizes_in};
use units::Sizes;

// The most bytes of a line.
pub(crate) const SIZES_LINE: usize = 10;

impl<'a> Text<'a> {
    // "1 2 5": the step, and the least and the greatest size of a feasible set there. Where there is none, nothing is
    // put.
    fn put_sizes_line(&mut self, step: u32, sizes: Option<Sizes>)
        requires step_bound { step < 1000 }
        requires two_digits { TwoDigits sizes }
        requires room { HasRoom self.old sizes_most }
        ensures { Puts (sizes_line step sizes) self.old self.new }
    {
        let Some(sizes) = sizes else {
            return;
        };
        self.put_decimal(step);
        self.put_field(b" ", sizes.few);
        self.put_field(b" ", sizes.many);
        self.put_byte(b'\n');
    }

    // The lines of all steps of a sheet.
    pub(crate) fn put_sizes_lines(&mut self, sheet: Sheet)
        requires { HasRoom self.old (sizes_most * sheet.summary.steps) }
        ensures { Puts (sizes_listing sheet.entry.bytes.now) self.old self.new }
    {
        let chambers = deal(sheet.summary.header.sizes);
        for (i, step) in sheet.steps().enumerate() {
            self.put_sizes_line(i as u32 + 1, sizes_in(step, chambers));
        }
    }
}
