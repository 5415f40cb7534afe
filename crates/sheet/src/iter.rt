// The steps of a sheet, one after the other along the chain.
ghost use Rattle.std.specs.Prelude.{◌≡◌};
ghost use Rattle.std.specs.Iterator.{YieldsFirst, item_count};
ghost use Rattle.format.specs.Chain.{Inside, steps_from};

use super::record::Records;
use format::ChamberStep;
use std::marker::Model;

// The steps that are still to come after a record, which lie whole within the bytes, seen as the list of them.
#[derive(Drop)]
pub struct Steps<'a> {
    records: Records<'a>,
    at: usize,
    left: usize,
}

impl<'a> Model for Steps<'a> {
    ghost use Rattle.std.specs.Prelude.{List};
    ghost use Rattle.format.specs.declared.ChamberStep.{ChamberStep};
    ghost use Rattle.format.specs.Chain.{Inside as Whole, steps_from};

    ghost Value = { List ChamberStep };

    ghost view = { λ steps. steps_from steps.records.bytes.now steps.at steps.left };

    ghost invariant = { λ steps. Whole steps.records.bytes.now steps.at steps.left };
}

impl<'a> Steps<'a> {
    // The first n steps of the chain.
    pub fn of(records: Records<'a>, n: usize) -> Steps<'a>
        requires inside { Inside records.bytes.now 0 n }
        ensures { result ≡ steps_from records.entry.bytes.now 0 n }
    {
        Steps {
            records,
            at: 0,
            left: n,
        }
    }
}

impl<'a> Iterator for Steps<'a> {
    type Item = ChamberStep;

    ghost next_gives = { YieldsFirst (λ steps. steps) };

    ghost remaining = { item_count (λ steps. steps) };

    fn next(&mut self) -> Option<ChamberStep> {
        if self.left == 0 {
            return None;
        }
        let at = self.records.follow(self.at);
        self.at = at;
        self.left -= 1;
        Some(self.records.step(at))
    }
}
