// A small sheet as the library gets it, and what the library hands out for it into lists that it is lent, held to
// the listing.
ghost use Rattle.std.specs.Prelude.{◌≤◌};

use super::numbered::Plan;
use super::small::Small;
use promises::Reply;
use trials::tally::Tally;

// What a lent place holds before a call.
pub const FILL: u64 = 0xaaaa_aaaa_aaaa_aaaa;

// A small sheet as the library gets it, with some bound, and the fewest switches that the listing finds for it.
#[derive(Clone, Copy)]
pub struct Trial<'a> {
    pub sheet: &'a Small,
    pub bytes: &'a [u8],
    pub fewest: u16,
    pub bound: u16,
}

// Whether all places of a list from that one on are as they were lent.
fn is_left(list: &Plan, from: usize) -> bool {
    list.iter().skip(from).all(|word| *word == FILL)
}

// Whether a reply is refusal 9, with the fewest switches for its place.
fn is_over_bound(reply: Reply, fewest: u16) -> bool {
    reply.refusal == 9
        && reply.place == u32::from(fewest)
        && reply.total == 0
        && reply.accepted == 0
}

// Whether a reply is no refusal and has that total.
fn has_total(reply: Reply, total: u16) -> bool {
    reply.refusal == 0 && reply.place == 0 && reply.total == u32::from(total) && reply.accepted == 0
}

impl<'a> Trial<'a> {
    // Tries a call that is lent two lists at the most, where the bound is below the fewest: it is refused, and
    // leaves the lists as they were.
    pub fn try_refusal<C: FnOnce(&mut Plan, &mut Plan) -> Reply>(&self, call: C) -> Tally
        requires { C.IsAlwaysCallable call }
    {
        if self.fewest <= self.bound {
            return Tally::default();
        }
        let mut first = [FILL; 8];
        let mut second = [FILL; 8];
        let reply = call(&mut first, &mut second);
        Tally::from(is_over_bound(reply, self.fewest) && is_left(&first, 0) && is_left(&second, 0))
    }

    // Tries it where the bound is not: the reply has the fewest switches for its total, the places after the steps
    // are as they were, and the first list passes a test.
    pub fn try_reply<C: FnOnce(&mut Plan, &mut Plan) -> Reply, T: FnOnce(&Plan) -> bool>(
        &self,
        call: C,
        test: T,
    ) -> Tally
        requires callable { C.IsAlwaysCallable call }
        requires testable { T.IsAlwaysCallable test }
    {
        if self.bound < self.fewest {
            return Tally::default();
        }
        let steps = self.sheet.steps;
        let mut first = [FILL; 8];
        let mut second = [FILL; 8];
        let reply = call(&mut first, &mut second);
        Tally::from(
            has_total(reply, self.fewest)
                && is_left(&first, steps)
                && is_left(&second, steps)
                && test(&first),
        )
    }
}
