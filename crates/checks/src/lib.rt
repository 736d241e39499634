// The two plan checks of document 01: the route check (21) and the meeting check (22). Passing both is demand 3's plan check.
// 'Both begin with checks 1 to 6 (no N there), then 7 if the plan is shorter than m × (H + 1); bytes after that length are not
// read.' P1: '16 shared goal, directly after 6', and 7 tells the length that the plan needed. They write nothing.
#![tactic(auto)]

ghost use Rattle.std.specs.Prelude.{◌+◌, ◌*◌, ◌≤◌, ◌<◌, ◌≡◌, length, get_or, find};
ghost use Rattle.std.specs.List.{range_with_len};
ghost use Rattle.job.specs.Job.{most_horizon, most_carriers};
ghost use Rattle.job.specs.Team.{lent_job};
ghost use Rattle.routes.specs.Check.{wrong_arrival, wrong_at, first_wrong_place, route_verdict};
ghost use Rattle.clashes.specs.Check.{meeting_verdict};
ghost use Rattle.checks.specs.Walk.{Ready, PlaceFound, begun};

use clashes::Clash;
use hall::{Grid, Hall};
use job::{CheckRefusal, LentJob};
use routes::Place;

// The length that check 7 asks of a plan: m × (H + 1). It is that of a node's stretch too (`children::stretch_of`), which is promised of a
// search's task; here the edit `needed_without_the_last_step` stands on it.
fn needed_length(count: usize, h: usize) -> usize
    requires { (count ≤ most_carriers) × (h ≤ most_horizon) }
    ensures { result ≡ count * (h + 1) }
{
    count * (h + 1)
}

// What both checks begin with: 'checks 1 to 6 (no N there), then 7 if the plan is shorter than m × (H + 1)'.
#[tactic(auto, using(crate::proofs::WalkCode::accepted_limits), unfolding(crate::specs::Walk::begun, job::specs::Verdict::judge, job::specs::Verdict::if_accepted))]
fn begin(job: LentJob, plan: &[u8]) -> Result<(), CheckRefusal>
    ensures { result ≡ begun (lent_job job.entry) plan.now }
{
    job::judge_job(job, false)?;
    let needed = needed_length(job.team.count, job.horizon);
    if plan.len() < needed {
        return Err(CheckRefusal::Short { needed });
    }
    Ok(())
}

// The routes of an accepted job in the bytes of a plan: 'carrier by carrier, its cells for steps 0 to H'.
#[derive(Clone, Copy)]
struct Routes<'a> {
    job: LentJob<'a>,
    plan: &'a [u8],
    ghost ready: { Ready (lent_job job) plan.now },
}

impl Routes<'_> {
    ghost use Rattle.checks.specs.Lent.{job_in, cell_in};

    // The byte of carrier i's route at step t, as a cell. Crate clashes and the planner have a cell of their own, on other facts.
    fn cell(self, i: usize, t: usize) -> usize
        requires { (i < self.job.team.count) × (t ≤ self.job.horizon) }
        ensures { (result ≡ cell_in self.entry i t) × (result < 256) }
    {
        self.plan[i * (self.job.horizon + 1) + t] as usize
    }

    // Is the start of carrier i wrong, or the move or the cell with which it arrives at step t? 'a wrong move counts at the step
    // it arrives'.
    #[tactic(auto, using(crate::proofs::WalkCode::lent_start, crate::proofs::WalkCode::arrival_move))]
    fn wrong_arrival(self, i: usize, t: usize) -> bool
        requires { (i < self.job.team.count) × (t ≤ self.job.horizon) }
        ensures { result ≡ wrong_arrival (job_in self.entry) i (cell_in self.entry i) t }
    {
        let job = self.job;
        if t == 0 {
            return self.cell(i, t) != job.team.starts[i] as usize;
        }
        let grid = Grid {
            width: job.width,
            height: job.height,
        };
        let hall = Hall {
            grid,
            bytes: job.hall,
        };
        !hall.follows(self.cell(i, t - 1), self.cell(i, t))
    }

    // Is carrier i's route wrong at step t? 'the start, a move, a cell or the goal is wrong (.. step H if only the goal is
    // wrong)'
    #[tactic(auto, using(crate::proofs::WalkCode::at_arrival, crate::proofs::WalkCode::lent_goal, crate::proofs::WalkCode::at_inside))]
    fn wrong_at(self, i: usize, t: usize) -> bool
        requires { (i < self.job.team.count) × (t ≤ self.job.horizon) }
        ensures { result ≡ wrong_at (job_in self.entry) i (cell_in self.entry i) t }
    {
        self.wrong_arrival(i, t)
            || t == self.job.horizon && self.cell(i, t) != self.job.team.goals[i] as usize
    }

    // 'its first step': the first step at which carrier i's route is wrong.
    fn first_wrong_step(self, i: usize) -> Option<usize>
        requires { i < self.job.team.count }
        ensures { result ≡ find (wrong_at (job_in self.entry) i (cell_in self.entry i)) (range_with_len 0 (self.entry.job.horizon + 1)) }
    {
        (0..self.job.horizon + 1).find(|&t| self.wrong_at(i, t))
    }

    // 'the first carrier, and its first step'
    #[tactic(auto, using(crate::proofs::WalkCode::places_from, lists::proofs::Loops::first_each_done))]
    fn first_wrong_place(self) -> Option<Place>
        ensures { PlaceFound result (first_wrong_place (job_in self.entry) (cell_in self.entry)) }
    {
        for carrier in 0..self.job.team.count {
            if let Some(step) = self.first_wrong_step(carrier) {
                return Some(Place { carrier, step });
            }
        }
        None
    }
}

// The route check: 'says 0, or 21 with the first carrier, and its first step, at which the start, a move, a cell or the goal is
// wrong'.
#[tactic(auto, using(crate::proofs::WalkCode::begun_ready, crate::proofs::WalkCode::begun_routes, crate::proofs::WalkCode::refused_routes))]
pub fn check_routes(job: LentJob, plan: &[u8]) -> Result<Option<Place>, CheckRefusal>
    ensures { result ≡ route_verdict (lent_job job.entry) plan.now }
{
    begin(job, plan)?;
    Ok(Routes { job, plan }.first_wrong_place())
}

// The meeting check: 'compares any bytes as cells (..) and says 0, or 22 with the meeting or swap chosen by rule 5 and which of
// the two it is'.
#[tactic(auto, using(crate::proofs::WalkCode::begun_whole, crate::proofs::WalkCode::begun_meetings, crate::proofs::WalkCode::refused_meetings))]
pub fn check_meetings(job: LentJob, plan: &[u8]) -> Result<Clash, CheckRefusal>
    ensures { result ≡ meeting_verdict (lent_job job.entry) plan.now }
{
    begin(job, plan)?;
    Ok(clashes::first_clash(plan, job.team, job.horizon))
}
