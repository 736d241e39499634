// Routes of one carrier: lawful ones, their cost, bars, the best route under bars, and the place that the route check (21) tells.
#![tactic(auto)]

// What a carrier may not do: be on a cell from one step to another, or go from one cell to another between step and step + 1. Free is a
// kind of bar, as a node's record has it; as an Option of two kinds the root's and every other record would be told apart no plainer.
#[derive(Clone, Copy)]
pub enum Bar {
    Free,
    Stay {
        cell: usize,
        first: usize,
        last: usize,
    },
    Cross {
        from: usize,
        to: usize,
        step: usize,
    },
}

// A carrier, and a step of its route.
#[derive(Clone, Copy)]
pub struct Place {
    pub carrier: usize,
    pub step: usize,
}
