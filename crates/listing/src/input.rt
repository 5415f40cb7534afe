// What the programs that print a listing share: they read a sheet from an input, and write its listing to an output.
ghost use Rattle.std.specs.Prelude.{ℕ, List, ◌≡◌, ◌<◌, ◌≤◌, length, take, IfOk, OnOk};
ghost use Rattle.std.specs.Io.KnownBytes.{Consumes, IsAtEnd};

use super::INPUT;
use std::convert::AsSlice;
use std::io;
use std::io::Read;

// Reads until the bytes are full or the input ends, and returns how many it put at their start: fewer than there is
// room for only where the input has no more.
fn read_full<R: Read>(input: &mut R, bytes: &mut [u8]) -> io::Result<usize>
    ensures bound { IfOk result (λ n. n ≤ length bytes.new) }
    ensures bytes { IfOk result (λ n. Consumes (R.remaining input.old) (R.remaining input.new) (take n bytes.new)) }
    ensures end { IfOk result (λ n. n < length bytes.new → IsAtEnd (R.remaining input.new)) }
{
    // no `for`, since a turn reads as many bytes as come; `read_exact` fails where the input ends
    let mut done = 0;
    while done < bytes.len() {
        let count = input.read(&mut bytes[done..])?;
        if count == 0 {
            break;
        }
        done += count;
    }
    Ok(done)
}

// Writes the listing of the sheet that comes on an input, which `list` puts into the text, and whose length it
// gives. The sheet is all that the input has, or as much of it as there is room for.
pub fn print_listing<R: Read, P: Print, T: AsSlice<u8> + Drop, L: FnOnce(&[u8], &mut T) -> usize>(
    input: &mut R,
    out: &P,
    mut text: T,
    list: L,
) -> io::Result<()>
    requires callable { L.IsAlwaysCallable list }
    requires within { (sheet : _) (before : _) (count : _) (after : _) →
        L.post list sheet before count after → count ≤ length (T.items after.now) }
    ensures { OnOk result ((sheet : List ℕ)
        × Consumes (R.remaining input.old) (R.remaining input.new) sheet
        × (length sheet < INPUT → IsAtEnd (R.remaining input.new))
        × ((lent : _) × (before : _) × (count : _) × (after : _)
        × (lent.now ≡ sheet) × L.post list lent before count after)) }
{
    let mut sheet = [0u8; INPUT];
    let count = read_full(input, &mut sheet)?;
    let length = list(&sheet[..count], &mut text);
    out.write_all(&text.as_slice()[..length])
}
