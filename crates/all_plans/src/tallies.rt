// How many trials of each kind were made and how many of them came out right, and the lines that say so.
use std::fmt;
use std::iter::Sum;
use std::ops::Add;
use trials::tally::Tally;

// The feasible plans listed, and the trials: of plans handed out and refused, of verdicts on the plans of a sheet's
// units, on plans with a unit more and on plans of a wrong length, and of charts handed out and refused, and their
// cells.
#[derive(Clone, Copy, Debug, Default, PartialEq, Eq)]
pub struct Tallies {
    pub listed: usize,
    pub plans: Tally,
    pub plans_refused: Tally,
    pub verdicts: Tally,
    pub unit_more: Tally,
    pub lengths: Tally,
    pub charts: Tally,
    pub charts_refused: Tally,
    pub cells: Tally,
}

impl Tallies {
    // The trials of all kinds.
    pub fn all(&self) -> Tally {
        let handed = self.plans + self.plans_refused;
        let judged = self.verdicts + self.unit_more + self.lengths;
        let charted = self.charts + self.charts_refused + self.cells;
        handed + judged + charted
    }
}

// The trials of both. No sum comes near to the largest number.
impl Add for Tallies {
    type Output = Tallies;

    fn add(self, other: Tallies) -> Tallies {
        Tallies {
            listed: self.listed.saturating_add(other.listed),
            plans: self.plans + other.plans,
            plans_refused: self.plans_refused + other.plans_refused,
            verdicts: self.verdicts + other.verdicts,
            unit_more: self.unit_more + other.unit_more,
            lengths: self.lengths + other.lengths,
            charts: self.charts + other.charts,
            charts_refused: self.charts_refused + other.charts_refused,
            cells: self.cells + other.cells,
        }
    }
}

impl Sum<Tallies> for Tallies {
    fn sum<I: Iterator<Item = Tallies>>(iter: I) -> Tallies {
        iter.fold(Tallies::default(), |all, one| all + one)
    }
}

// A line for each kind and one for all.
impl fmt::Display for Tallies {
    fn fmt<W: fmt::Write>(&self, f: &mut fmt::Formatter<W>) -> fmt::Result {
        let sheets = self.plans + self.plans_refused;
        writeln!(f, "small sheets: {}", sheets.made)?;
        writeln!(f, "feasible plans listed: {}", self.listed)?;
        writeln!(f, "plans handed out: {}", self.plans)?;
        writeln!(f, "plans refused by 9: {}", self.plans_refused)?;
        writeln!(f, "verdicts: {}", self.verdicts)?;
        writeln!(f, "verdicts on plans with a unit more: {}", self.unit_more)?;
        writeln!(
            f,
            "verdicts on plans too long or too short: {}",
            self.lengths
        )?;
        writeln!(f, "charts handed out: {}", self.charts)?;
        writeln!(f, "charts refused by 9: {}", self.charts_refused)?;
        writeln!(f, "chart cells: {}", self.cells)?;
        write!(f, "in all: {}", self.all())
    }
}
