// Document 01, 'Jobs worked by hand', those with two carriers, refusals of document 02, P1, and jobs of its P2 and P3: the carriers are
// lent as a list of records to the planner and to both checks of what it wrote. For each job its lines, then the numbers of the route
// check and of the meeting check, then an empty line.
#![tactic(auto)]

ghost use Rattle.std.specs.Prelude.{◌≡◌};
ghost use Rattle.job.specs.Team.{job_of};
ghost use Rattle.carriers.specs.Lent.{records_team};
ghost use Rattle.routes.specs.Check.{route_verdict};
ghost use Rattle.clashes.specs.Check.{meeting_verdict};
ghost use Rattle.planner.specs.Post.{Planned};

use carriers::Carrier;
use clashes::Clash;
use job::CheckRefusal;
use planner::{Denial, Plan};
use routes::Place;
use std::io;

// Open floors.
#[derive(Clone, Copy)]
struct Floor {
    hall: &'static [u8],
    width: usize,
    height: usize,
}

const TWO_CELLS: Floor = Floor {
    hall: b"..",
    width: 2,
    height: 1,
};

const ROW: Floor = Floor {
    hall: b"...",
    width: 3,
    height: 1,
};

const SQUARE: Floor = Floor {
    hall: b".........",
    width: 3,
    height: 3,
};

const TWO_ROWS: Floor = Floor {
    hall: b"........",
    width: 4,
    height: 2,
};

const FOUR_BY_FOUR: Floor = Floor {
    hall: b"................",
    width: 4,
    height: 4,
};

const FIVE_BY_THREE: Floor = Floor {
    hall: b"...............",
    width: 5,
    height: 3,
};

// A floor's job whose carriers are lent as records, to the planner: all that are lent, and no others.
fn plan_lent(
    floor: Floor,
    carriers: &[Carrier],
    h: usize,
    n: usize,
    columns: &mut [u16],
    plans: &mut [u8],
    layers: &mut [u8],
    output: &mut [u8],
) -> Result<Plan, Denial>
    ensures { Planned (job_of floor.width floor.height floor.hall.now (records_team carriers.now) h) n (record { columns = columns.old; plans = plans.old; layers = layers.old; output = output.old }) result (record { columns = columns.new; plans = plans.new; layers = layers.new; output = output.new }) }
{
    let Floor {
        hall,
        width,
        height,
    } = floor;
    entry::plan(
        hall, width, height, carriers, h, n, columns, plans, layers, output,
    )
}

// The same, lent to the route check.
fn routes_lent(
    floor: Floor,
    carriers: &[Carrier],
    h: usize,
    plan: &[u8],
) -> Result<Option<Place>, CheckRefusal>
    ensures { result ≡ route_verdict (job_of floor.width floor.height floor.hall.now (records_team carriers.now) h) plan.now }
{
    entry::check_routes(floor.hall, floor.width, floor.height, carriers, h, plan)
}

// And to the meeting check.
fn meetings_lent(
    floor: Floor,
    carriers: &[Carrier],
    h: usize,
    plan: &[u8],
) -> Result<Clash, CheckRefusal>
    ensures { result ≡ meeting_verdict (job_of floor.width floor.height floor.hall.now (records_team carriers.now) h) plan.now }
{
    entry::check_meetings(floor.hall, floor.width, floor.height, carriers, h, plan)
}

// From a start to a goal, with a slip.
fn goes(start: u8, goal: u8, slip: u8) -> Carrier {
    Carrier { start, goal, slip }
}

// Columns of the greatest length for N = 128, and plans of that for N = 16: for N = 128 they are enough here.
fn show(rt: &impl Print, floor: Floor, carriers: &[Carrier], h: usize, n: usize) -> io::Result<()> {
    let mut columns = [0u16; 1024];
    let mut plans = [0u8; 8192];
    let mut layers = [0u8; 32768];
    let mut output = [0u8; 512];
    let answer = plan_lent(
        floor,
        carriers,
        h,
        n,
        &mut columns,
        &mut plans,
        &mut layers,
        &mut output,
    );
    let team = carriers::team_of_records(carriers);
    let mut out = [0u8; 4096];
    let end = lines::answer_lines(answer, team, h, &output, &mut out);
    rt.write_all(&out[..end])?;
    let routes = told::route_told(routes_lent(floor, carriers, h, &output)).number;
    let meetings = told::meeting_told(meetings_lent(floor, carriers, h, &output)).number;
    println!(rt; "routes {routes}\nmeetings {meetings}\n")
}

fn main(rt: HostRuntime) -> io::Result<()> {
    // 3 by 3, 3→5 and 1→7, H 4: slips 0 with N 3 and N 2, and slips 1.
    show(&rt, SQUARE, &[goes(3, 5, 0), goes(1, 7, 0)], 4, 3)?;
    show(&rt, SQUARE, &[goes(3, 5, 0), goes(1, 7, 0)], 4, 2)?;
    show(&rt, SQUARE, &[goes(3, 5, 1), goes(1, 7, 1)], 4, 3)?;
    // Width 3, height 1, 0→2 and 2→0, slips 0, H 2.
    show(&rt, ROW, &[goes(0, 2, 0), goes(2, 0, 0)], 2, 8)?;
    // Width 2, height 1, 0→1 and 1→0, slips 0, H 1.
    show(&rt, TWO_CELLS, &[goes(0, 1, 0), goes(1, 0, 0)], 1, 8)?;
    // Width 3, height 1, 0→1 and 1→2: slips 0 and 1 with H 1, slips 1 with H 2.
    show(&rt, ROW, &[goes(0, 1, 0), goes(1, 2, 0)], 1, 8)?;
    show(&rt, ROW, &[goes(0, 1, 1), goes(1, 2, 1)], 1, 8)?;
    show(&rt, ROW, &[goes(0, 1, 1), goes(1, 2, 1)], 2, 8)?;
    // Width 4, height 2, 6→2 and 0→3, slips 0, H 3.
    show(&rt, TWO_ROWS, &[goes(6, 2, 0), goes(0, 3, 0)], 3, 8)?;
    // Document 02, P1: one start, one goal, both, and a table too short: with N 129 the columns need 1,032 entries, and 1,024 are lent.
    show(&rt, ROW, &[goes(0, 1, 0), goes(0, 2, 0)], 2, 8)?;
    show(&rt, ROW, &[goes(0, 2, 0), goes(1, 2, 0)], 2, 8)?;
    show(&rt, ROW, &[goes(0, 2, 0), goes(0, 2, 0)], 2, 8)?;
    show(&rt, ROW, &[goes(0, 1, 0), goes(1, 2, 0)], 1, 129)?;
    // Document 02, P2: 4 by 4, 4→7 and 1→13, and 5 by 3, 5→9 and 2→12, slips 2, H 10.
    show(&rt, FOUR_BY_FOUR, &[goes(4, 7, 2), goes(1, 13, 2)], 10, 16)?;
    show(&rt, FIVE_BY_THREE, &[goes(5, 9, 2), goes(2, 12, 2)], 10, 16)?;
    // Document 02, P3: 4 by 2, 0→3 and 3→0, H 8, slips 0 and 1, then 1 and 0; width 3, height 1, 0→2 and 2→0, slips 0 and 1, H 6; 3 by 3,
    // 3→5, 1→7 and 8→0, slips 2, 0 and 1, H 10; and a slip of 5, which is wrong.
    show(&rt, TWO_ROWS, &[goes(0, 3, 0), goes(3, 0, 1)], 8, 128)?;
    show(&rt, TWO_ROWS, &[goes(0, 3, 1), goes(3, 0, 0)], 8, 128)?;
    show(&rt, ROW, &[goes(0, 2, 0), goes(2, 0, 1)], 6, 128)?;
    let three = [goes(3, 5, 2), goes(1, 7, 0), goes(8, 0, 1)];
    show(&rt, SQUARE, &three, 10, 128)?;
    show(&rt, ROW, &[goes(0, 1, 0), goes(1, 2, 5)], 1, 8)
}
