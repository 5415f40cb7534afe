// The backward tables, step by step: how the switches still to come from a neighbour of the plan's set compare with
// those from the set; and the words of the chart, which are read from both tables. specs/Tables.antt of `tables`
// defines them. Nothing here is an open entry of the library.
#![tactic(auto)]

ghost use Rattle.std.specs.Prelude.{◌≡◌};
ghost use Rattle.units.specs.Sets.{all};
ghost use Rattle.tables.specs.Places.{rows_of};
ghost use Rattle.tables.specs.Tables.{on_word, off_word, ended, stepped};
ghost use Rattle.backward.specs.Backs.{later_of, SameOn};

use find::{find, in_place};
use rows::Back;
use tables::{PlanStep, ROWS, Table};
use units::{ALL, choose, contains, difference, intersection, meets, union};

mod find;
mod rows;

// The words of the chart at a step.
#[derive(Drop)]
pub struct Words {
    pub on: u64,
    pub off: u64,
}

// What is still to come after a step: the units with which there is one switch less, those without which there are no
// more, and the tables of the units in place of one with which there are no more, or one less.
#[derive(Drop)]
pub struct Later {
    saves: u64,
    dispensable: u64,
    even: Table,
    gain: Table,
}

impl Later {
    // After the last step there are none to come.
    pub fn ended() -> Later
        ensures { SameOn all (later_of result) ended }
    {
        Later {
            saves: 0,
            dispensable: ALL,
            even: [ALL; ROWS],
            gain: [0; ROWS],
        }
    }

    // The units that can be on in a step, and those of `us` that can be off, with no switch to spare, or with one.
    // `turns` is the forward table after the step.
    pub fn read_words(&self, step: PlanStep, turns: &Table, tight: bool, us: u64) -> Words
        ensures on_value { result.on ≡ on_word tight step.limits step.after (rows_of turns.now) (later_of self.now) }
        ensures off_value { result.off ≡ off_word tight us step.limits step.after (rows_of turns.now) (later_of self.now) }
    {
        let t = step.after;
        let free = step.free();
        let held = step.held_after();
        let joining = choose(step.allows_more(), choose(tight, self.saves, ALL), 0);
        let loose = choose(step.allows_less(), choose(tight, self.dispensable, ALL), 0);
        let found = find(held, |b| {
            let u = b as usize;
            let place = in_place(tight, turns[u], self.even[u], self.gain[u]);
            (place, meets(place, free))
        });
        Words {
            on: union(t, intersection(free, union(joining, found.joined))),
            off: union(
                difference(us, t),
                union(intersection(held, loose), found.passed),
            ),
        }
    }

    // Carries what is still to come back over a step: of the rows, those of the units held before it.
    pub fn step_back(&mut self, step: PlanStep)
        ensures { SameOn step.held (later_of self.new) (stepped step.limits step.before step.after (later_of self.old)) }
    {
        let p = step.before;
        let free = step.free();
        let held = step.held_after();
        let new = step.entering();
        let joining = choose(step.allows_more(), self.saves, 0);
        let loose = choose(step.allows_less(), self.dispensable, 0);
        let owned = intersection(free, p);
        let found = find(held, |b| {
            let even = self.even[b as usize];
            let gain = self.gain[b as usize];
            (
                union(choose(contains(p, b), 0, even), gain),
                meets(even, owned) | meets(gain, free),
            )
        });
        self.saves = union(new, intersection(free, union(joining, found.joined)));
        self.dispensable = union(
            difference(p, step.after),
            union(intersection(held, loose), found.passed),
        );
        let back = Back {
            saves: self.saves,
            dispensable: self.dispensable,
            held,
            on: step.after,
            new,
            free,
        };
        back.turn(&mut self.even, &mut self.gain, step.held);
    }
}
