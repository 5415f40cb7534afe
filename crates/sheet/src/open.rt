// The reader: the bytes with what they say, or the first refusal.
ghost use Rattle.std.specs.Prelude.{◌≡◌, IfOk};
ghost use Rattle.format.specs.Stages.{open_read, summary_read};
ghost use Rattle.format.specs.Told.{told, told_of};

use super::Sheet;
use super::chain::walk_chain;
use super::head::read_header;
use super::record::Records;
use super::steps::search_steps;
use format::{Refusal, Summary};

// What header and chain say: the first refusal of 1 to 5 and 13, or the summary. It is not put into `read`, so that
// its work is off the stack while the steps are searched.
#[inline(never)]
pub fn read_chain(bytes: &[u8]) -> Result<Summary, Refusal>
    ensures { told result ≡ open_read bytes.now }
{
    let header = read_header(bytes)?;
    let steps = walk_chain(Records::of(bytes), header.records as usize)?;
    Ok(Summary { header, steps })
}

// What the bytes say: the first refusal of 1 to 7, 13 and 14, or the sheet. It is put into its callers, whose
// stack is then that of one function and not of two.
#[inline(always)]
pub fn read<'a>(bytes: &'a [u8]) -> Result<Sheet<'a>, Refusal>
    ensures value { told_of (λ sheet. sheet.summary) result ≡ summary_read bytes.now }
    ensures same_bytes { IfOk result (λ sheet. sheet.bytes.now ≡ bytes.now) }
{
    let summary = read_chain(bytes)?;
    search_steps(bytes, summary)?;
    Ok(Sheet { bytes, summary })
}
