// What the planner answers: a plan, or why there is none.
ghost use Rattle.std.specs.Prelude.{◌≡◌};
ghost use Rattle.planner.specs.declared.answer.Denial.TheVariants.{Job as OfJob};

use job::Refusal;

// Answer 0: the sum of the costs and how many records the search made. The routes are in the output.
#[derive(Clone, Copy, PartialEq, Eq)]
pub struct Plan {
    pub sum: usize,
    pub records: usize,
}

// Every other answer: the refusal of the job or of N (1 to 6 and 16), a lent table that is too short (7), no plan (8), and all records
// in use (9). The table is a number, 0 to 3, since C is told it so.
#[derive(Clone, Copy, PartialEq, Eq)]
pub enum Denial {
    Job(Refusal),
    Short { table: usize, needed: usize },
    NoPlan { records: usize },
    Full { records: usize },
}

impl From<Refusal> for Denial {
    ghost from_gives = { λ r d. d ≡ OfJob r };

    fn from(refusal: Refusal) -> Denial {
        Denial::Job(refusal)
    }
}
