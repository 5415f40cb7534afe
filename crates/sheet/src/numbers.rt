// Numbers out of bytes: little-endian, at any place where they lie whole within the slice. There is a function for
// each width, since `from_le_bytes` is a method of each type and of no trait; the place stands beside the slice, as in
// the definitions, which speak of places in the whole sheet.
ghost use Rattle.std.specs.Prelude.{◌≡◌, ◌+◌, ◌≤◌, length, take, drop};
ghost use Rattle.format.specs.Numbers.{u16_at, u32_at, u64_at};

// The N bytes from a place on.
fn bytes_at<const N: usize>(s: &[u8], at: usize) -> [u8; N]
    requires { at + N ≤ length s.now }
    ensures { result ≡ take N (drop at s.now) }
{
    s[at..at + N].try_into().unwrap()
}

pub fn u16_at(s: &[u8], at: usize) -> u16
    requires { at + 2 ≤ length s.now }
    ensures { result ≡ u16_at s.now at }
{
    u16::from_le_bytes(bytes_at(s, at))
}

pub fn u32_at(s: &[u8], at: usize) -> u32
    requires { at + 4 ≤ length s.now }
    ensures { result ≡ u32_at s.now at }
{
    u32::from_le_bytes(bytes_at(s, at))
}

pub fn u64_at(s: &[u8], at: usize) -> u64
    requires { at + 8 ≤ length s.now }
    ensures { result ≡ u64_at s.now at }
{
    u64::from_le_bytes(bytes_at(s, at))
}
