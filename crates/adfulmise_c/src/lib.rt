// The library for C and Rust, libadfulmise.a: the functions of crate adfulmise, each exported under its own name with the clauses that
// it has there. `include/adfulmise.h` says the same for C. No function asks anything of its caller.
// A crate of its own: the kit builds a crate as a library or as a static library, and Rattle code stands on `adfulmise`.
#![tactic(auto)]

ghost use Rattle.job.specs.Team.{job_of};
ghost use Rattle.carriers.specs.Lent.{records_team};
ghost use Rattle.routes.specs.Check.{route_verdict, route_told};
ghost use Rattle.clashes.specs.Check.{meeting_verdict, meeting_told};
ghost use Rattle.adfulmise.specs.Post.{Answered, Checked, Read};

use carriers::Carrier;

// The planner; `told` becomes number, sum, records, carrier, other, table and needed.
#[unsafe(no_mangle)]
pub extern "C" fn adfulmise_plan(
    hall: &[u8],
    width: usize,
    height: usize,
    carriers: &[Carrier],
    h: usize,
    n: usize,
    columns: &mut [u16],
    plans: &mut [u8],
    layers: &mut [u8],
    output: &mut [u8],
    told: &mut [usize],
) -> usize
    ensures { Answered (job_of width height hall.now (records_team carriers.now) h) n (record { columns = columns.old; plans = plans.old; layers = layers.old; output = output.old }) told.old result (record { columns = columns.new; plans = plans.new; layers = layers.new; output = output.new }) told.new }
{
    adfulmise::adfulmise_plan(
        hall, width, height, carriers, h, n, columns, plans, layers, output, told,
    )
}

// The route check; `told` becomes number, carrier, other, step, distance, 1 for a swap, and needed.
#[unsafe(no_mangle)]
pub extern "C" fn adfulmise_check_routes(
    hall: &[u8],
    width: usize,
    height: usize,
    carriers: &[Carrier],
    h: usize,
    plan: &[u8],
    told: &mut [usize],
) -> usize
    ensures { Checked (route_told (route_verdict (job_of width height hall.now (records_team carriers.now) h) plan.now)) told.old result told.new }
{
    adfulmise::adfulmise_check_routes(hall, width, height, carriers, h, plan, told)
}

// The meeting check, in the same way.
#[unsafe(no_mangle)]
pub extern "C" fn adfulmise_check_meetings(
    hall: &[u8],
    width: usize,
    height: usize,
    carriers: &[Carrier],
    h: usize,
    plan: &[u8],
    told: &mut [usize],
) -> usize
    ensures { Checked (meeting_told (meeting_verdict (job_of width height hall.now (records_team carriers.now) h) plan.now)) told.old result told.new }
{
    adfulmise::adfulmise_check_meetings(hall, width, height, carriers, h, plan, told)
}

// The book reader: `place` becomes the offset and the length in the book of the body of that kind, 0 and 0 with a refusal.
#[unsafe(no_mangle)]
pub extern "C" fn adfulmise_read(book: &[u8], kind: u8, place: &mut [usize]) -> usize
    ensures { Read book.now kind place.old result place.new }
{
    adfulmise::adfulmise_read(book, kind, place)
}
