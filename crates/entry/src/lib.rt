// The planner and the two plan checks as the library's exported functions, or another caller in Rattle, use them: 'The list of carriers
// is lent as a list of records'. The records are read by value, and the rest is the planner's and the checks'. No function asks
// anything of its caller. The parameters stand one by one, as the C interface has them.
#![tactic(auto)]

ghost use Rattle.std.specs.Prelude.{◌≡◌};
ghost use Rattle.job.specs.Team.{job_of, lent_job};
ghost use Rattle.carriers.specs.Lent.{records_team};
ghost use Rattle.routes.specs.Check.{route_verdict};
ghost use Rattle.clashes.specs.Check.{meeting_verdict};
ghost use Rattle.planner.specs.Post.{Planned};

use carriers::Carrier;
use clashes::Clash;
use job::{CheckRefusal, LentJob};
use planner::{Denial, Plan};
use routes::Place;

// A job whose carriers are lent as records, as one with a team.
fn job_of_records<'a>(
    hall: &'a [u8],
    width: usize,
    height: usize,
    carriers: &[Carrier],
    h: usize,
) -> LentJob<'a>
    ensures { lent_job result ≡ job_of width height hall.entry.now (records_team carriers.now) h }
{
    LentJob {
        hall,
        width,
        height,
        team: carriers::team_of_records(carriers),
        horizon: h,
    }
}

pub fn plan(
    hall: &[u8],
    width: usize,
    height: usize,
    carriers: &[Carrier],
    h: usize,
    n: usize,
    columns: &mut [u16],
    plans: &mut [u8],
    layers: &mut [u8],
    output: &mut [u8],
) -> Result<Plan, Denial>
    ensures { Planned (job_of width height hall.now (records_team carriers.now) h) n (record { columns = columns.old; plans = plans.old; layers = layers.old; output = output.old }) result (record { columns = columns.new; plans = plans.new; layers = layers.new; output = output.new }) }
{
    let job = job_of_records(hall, width, height, carriers, h);
    planner::plan(job, n, columns, plans, layers, output)
}

pub fn check_routes(
    hall: &[u8],
    width: usize,
    height: usize,
    carriers: &[Carrier],
    h: usize,
    plan: &[u8],
) -> Result<Option<Place>, CheckRefusal>
    ensures { result ≡ route_verdict (job_of width height hall.now (records_team carriers.now) h) plan.now }
{
    checks::check_routes(job_of_records(hall, width, height, carriers, h), plan)
}

pub fn check_meetings(
    hall: &[u8],
    width: usize,
    height: usize,
    carriers: &[Carrier],
    h: usize,
    plan: &[u8],
) -> Result<Clash, CheckRefusal>
    ensures { result ≡ meeting_verdict (job_of width height hall.now (records_team carriers.now) h) plan.now }
{
    checks::check_meetings(job_of_records(hall, width, height, carriers, h), plan)
}
