// Numbers that look random and are the same in every run.
ghost use Rattle.std.specs.Prelude.{◌^◌, ◌<◌, ◌≤◌};

// A number below 2^32 in which all digits of x and y are scattered: the two halves of a sum of products, laid over
// each other.
fn scatter(x: u64, y: u64) -> u64
    ensures { result < 2 ^ 32 }
{
    let sum = x % 4294967296 * 2654435769 + y % 4294967296 * 1640531527;
    (sum ^ (sum >> 32)) % 4294967296
}

// What is drawn for a step of a case. Each number is worked out from the two and from what it is for, its purpose.
#[derive(Clone, Copy, Debug)]
pub struct Draws {
    pub case: usize,
    pub step: usize,
}

impl Draws {
    // The number below 2^32 of a purpose.
    fn drawn(self, purpose: usize) -> u64
        ensures { result < 2 ^ 32 }
    {
        let of_case = scatter(self.case as u64, 1);
        let of_step = scatter(of_case, self.step as u64);
        scatter(scatter(of_step, purpose as u64), 2)
    }

    // A number below the limit.
    pub fn below(self, limit: usize, purpose: usize) -> usize
        requires { 0 < limit }
        ensures { result < limit }
    {
        (self.drawn(purpose) / 2) as usize % limit
    }

    // A number from low to high, and about every second time low itself.
    pub fn between(self, low: usize, high: usize, purpose: usize) -> usize
        requires low_le_high { low ≤ high }
        requires high_bound { high < 65536 }
        ensures lower_bound { low ≤ result }
        ensures upper_bound { result ≤ high }
    {
        if self.drawn(purpose) % 2 == 0 {
            return low;
        }
        low + self.below(high - low + 1, purpose)
    }

    // A set of any of 64 units.
    pub fn set(self, purpose: usize) -> u64 {
        let low = self.drawn(purpose);
        low + 4294967296 * scatter(low, 3)
    }
}
