// Numbers as digits in ASCII: decimal without leading zeros, and hexadecimal in lower case with as many digits as are
// asked for. Both call themselves, as their definitions do, and are no `write!`: nothing shows that a `write!` of a
// number is Ok.
ghost use Rattle.std.specs.Prelude.{[], ◌∷◌, ◌<◌, length};
ghost use Rattle.promises.specs.Digits.{digit, decimal, hexadecimal};
ghost use Rattle.listing.specs.Puts.{HasRoom, Puts};

use super::text::Text;

// The sixteen digits, each at the place of its value. The table is what `entry_at` (docs/PROVED.md) is said of.
const DIGITS: [u8; 16] = *b"0123456789abcdef";

impl<'a> Text<'a> {
    // The digit of a number below 16.
    fn put_digit(&mut self, x: usize)
        requires x_bound { x < 16 }
        requires room { HasRoom self.old 1 }
        ensures { Puts (digit x ∷ []) self.old self.new }
    {
        self.put_byte(DIGITS[x]);
    }

    // A number in decimal digits, the highest first: those of the number without its last digit, and that digit.
    pub(crate) fn put_decimal(&mut self, x: u32)
        requires { HasRoom self.old (length (decimal x)) }
        ensures { Puts (decimal x) self.old self.new }
    {
        if x < 10 {
            self.put_digit(x as usize);
            return;
        }
        self.put_decimal(x / 10);
        self.put_digit((x % 10) as usize);
    }

    // The last `digits` hexadecimal digits of a number, the highest first.
    pub(crate) fn put_hexadecimal(&mut self, x: u64, digits: usize)
        requires { HasRoom self.old digits }
        ensures { Puts (hexadecimal digits x) self.old self.new }
    {
        if digits == 0 {
            return;
        }
        self.put_hexadecimal(x / 16, digits - 1);
        self.put_digit((x % 16) as usize);
    }
}
