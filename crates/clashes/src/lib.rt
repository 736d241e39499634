// Meetings and swaps between carriers, the chosen one of rule 5, holds and collisions, and the meeting check (22).
#![tactic(auto)]

ghost use Rattle.std.specs.Prelude.{◌+◌, ◌-◌, ◌<◌, ◌≤◌, min, ◌≡◌, get_or};
ghost use Rattle.lists.specs.Lists.{greatest};
ghost use Rattle.job.specs.Job.{most_slip, most_horizon};
ghost use Rattle.clashes.specs.Chosen.{meets, swaps, chosen};
ghost use Rattle.clashes.specs.Find.{first_clash, first_other, Whole, FirstSwap};

use job::Team;

// The meeting or swap that rule 5 chooses: first, the earlier carrier, is at step where second is distance steps later, or they
// exchange cells. Clear is one of three cases and no None around two: as an Option each place that tells them apart would be no plainer.
#[derive(Clone, Copy)]
pub enum Clash {
    Clear,
    Meeting {
        first: usize,
        second: usize,
        step: usize,
        distance: usize,
    },
    Swap {
        first: usize,
        second: usize,
        step: usize,
    },
}

// The first carrier that can be the other of a meeting of i: 'at equal steps the smaller number counts as earlier'.
#[tactic(auto, using(crate::proofs::Compared::other_now, crate::proofs::Compared::other_later))]
fn first_other(i: usize, d: usize) -> usize
    requires { i < 8 }
    ensures { result ≡ first_other i d }
{
    if d == 0 { i + 1 } else { 0 }
}

// How the carriers of a plan travel: 'carrier by carrier, its cells for steps 0 to H', and how far each may slip.
#[derive(Clone, Copy)]
struct Routes<'a> {
    plan: &'a [u8],
    slips: [u8; 8],
    count: usize,
    horizon: usize,
    ghost whole: { Whole plan.now slips count horizon },
}

impl Routes<'_> {
    ghost use Rattle.clashes.specs.Routes.{travel_in};

    // The cell of carrier i at step t. Crate checks and the planner have a cell of their own, of other routes and on other facts.
    fn cell(&self, i: usize, t: usize) -> u8
        requires { (i < self.now.count) × (t ≤ self.now.horizon) }
        ensures { result ≡ (travel_in self.now).at i t }
    {
        self.plan[i * (self.horizon + 1) + t]
    }

    // Are i at step t and j at step t + d on one cell, and may i slip so far? The cells are asked first, since they mostly
    // decide; so in `swap`.
    #[tactic(auto, using(crate::proofs::Compared::meets_far, crate::proofs::Compared::meets_apart, crate::proofs::Compared::meets_there))]
    fn meet(&self, i: usize, j: usize, t: usize, d: usize) -> bool
        requires { (i < self.now.count) × (j < self.now.count) × (t + d ≤ self.now.horizon) × (d ≡ 0 → i < j) }
        ensures { result ≡ meets (travel_in self.now) i j t d }
    {
        self.cell(i, t) == self.cell(j, t + d) && d <= self.slips[i] as usize && i != j
    }

    // Do i and j, neither of which slips, exchange their cells between t and t + 1?
    #[tactic(auto, using(crate::proofs::Compared::swaps_apart, crate::proofs::Compared::swaps_slipping, crate::proofs::Compared::swaps_still))]
    fn swap(&self, i: usize, j: usize, t: usize) -> bool
        requires { (i < j) × (j < self.now.count) × (t < self.now.horizon) }
        ensures { result ≡ swaps (travel_in self.now) i j t }
    {
        self.cell(i, t) == self.cell(j, t + 1)
            && self.cell(j, t) == self.cell(i, t + 1)
            && self.slips[i] == 0
            && self.slips[j] == 0
    }

    // The greatest slip of any carrier: no two that meet are further apart.
    fn greatest_slip(&self) -> usize
        ensures { result ≡ greatest self.now.count (travel_in self.now).slip }
    {
        self.slips[..self.count]
            .iter()
            .fold(0, |most, slip| most.max(*slip as usize))
    }

    // The first swap at step t: 'among swaps least i, then least j, with i < j'. Nested loops left by label, here and below: the
    // form that document 01 names ('How to write each place').
    #[tactic(auto, using(crate::proofs::Swaps::swaps_start, crate::proofs::Swaps::swaps_above, crate::proofs::Swaps::swaps_next_second, crate::proofs::Swaps::swaps_next_first, crate::proofs::Swaps::swaps_found, crate::proofs::Swaps::swaps_end, crate::proofs::Swaps::swaps_past))]
    fn first_swap(&self, t: usize) -> Clash
        ensures { FirstSwap (travel_in self.now) self.now.count t result }
    {
        if self.horizon <= t {
            return Clash::Clear;
        }
        let mut found = Clash::Clear;
        'search: for i in 0..self.count {
            for j in i + 1..self.count {
                if self.swap(i, j, t) {
                    found = Clash::Swap {
                        first: i,
                        second: j,
                        step: t,
                    };
                    break 'search;
                }
            }
        }
        found
    }

    // 'least e, then least distance of the two steps, then the earlier carrier's number, then the other's'. 'A swap at t comes
    // after all meetings at t and before those at t + 1'.
    #[tactic(auto, using(crate::proofs::Cursor::from_start, crate::proofs::Cursor::from_others, crate::proofs::Cursor::from_next_second, crate::proofs::Cursor::from_next_first, crate::proofs::Cursor::from_next_distance, crate::proofs::Cursor::from_swaps, crate::proofs::Cursor::from_next_step, crate::proofs::Cursor::from_meeting, crate::proofs::Cursor::from_swap, crate::proofs::Cursor::from_end, crate::proofs::Compared::other_now, crate::proofs::Compared::other_within))]
    fn first_clash(&self) -> Clash
        ensures { result ≡ chosen (travel_in self.now) self.now.count }
    {
        let most = self.greatest_slip();
        let mut found = Clash::Clear;
        'search: for t in 0..self.horizon + 1 {
            for d in 0..distances(most, self.horizon, t) {
                for i in 0..self.count {
                    for j in first_other(i, d)..self.count {
                        if self.meet(i, j, t, d) {
                            found = Clash::Meeting {
                                first: i,
                                second: j,
                                step: t,
                                distance: d,
                            };
                            break 'search;
                        }
                    }
                }
            }
            let swapped = self.first_swap(t);
            if let Clash::Swap { .. } = swapped {
                found = swapped;
                break 'search;
            }
        }
        found
    }
}

// How many distances there are at step t: from 0 to the greatest slip, 'both steps at most H'.
fn distances(most: usize, h: usize, t: usize) -> usize
    requires { (most ≤ most_slip) × (h ≤ most_horizon) × (t ≤ h) }
    ensures { result ≡ min most (h - t) + 1 }
{
    most.min(h - t) + 1
}

// The clash that rule 5 chooses in the routes of a plan.
pub fn first_clash(plan: &[u8], team: Team, h: usize) -> Clash
    requires { Whole plan.now team.slips team.count h }
    ensures { result ≡ first_clash plan.now team h }
{
    let slips = team.slips;
    let routes = Routes {
        plan,
        slips,
        count: team.count,
        horizon: h,
    };
    routes.first_clash()
}
