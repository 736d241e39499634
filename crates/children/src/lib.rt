// The nodes of the tree in the lent tables: the root (rule 3) and a child (rule 7), each with its record and its stretch of routes.
#![tactic(auto)]

ghost use Rattle.std.specs.Prelude.{◌+◌, ◌*◌, ◌≤◌, ◌<◌, ◌≡◌, length, get_or};
ghost use Rattle.job.specs.Job.{plan_length};
ghost use Rattle.routes.specs.declared.Bar.TheVariants.{Free};
ghost use Rattle.records.specs.Columns.{bar_at, Falls};
ghost use Rattle.tables.specs.State.{Sound};
ghost use Rattle.tables.specs.Tables.{plans_length};
ghost use Rattle.children.specs.Steps.{job_on, Ready, Kept, BarSet, ChildFact, RootFact, barred_of};
ghost use Rattle.children.specs.Written.{sum_in, ChildTables, RootTables};
ghost use Rattle.children.specs.Children.{RouteSought, Readable, RoutePut, ChildDue, ChildMade, FreeRoute, FreeRoutes};

use hall::Grid;
use job::LentJob;
use layers::Trip;
use marks::Bound;
use routes::Bar;

// An accepted job and N: what a search works on beside the tables. Those stay parameters: of a struct of `&mut`s lent on by `&mut` it is
// not proved that its lender has back what the callee left (tried: `returns` of `planner::run` stayed open).
#[derive(Clone, Copy)]
pub struct Task<'a> {
    pub job: LentJob<'a>,
    pub capacity: usize,
}

// The new bar of a child, and the carrier that it binds.
#[derive(Clone, Copy)]
pub struct Barred {
    pub carrier: usize,
    pub bar: Bar,
}

// What became of a child: it has no route, it took a record, or a record is due and all are in use. Three
// cases of rule 7, none of which wraps the others.
#[derive(Clone, Copy)]
pub enum Grown {
    Nothing,
    Made,
    Full,
}

// The length of a node's stretch of the plans table: m × (H + 1).
pub fn stretch_of(task: Task) -> usize
    requires { (task.job.team.count ≤ 8) × (task.job.horizon ≤ 63) }
    ensures { result ≡ task.entry.job.team.count * (task.entry.job.horizon + 1) }
{
    task.job.team.count * (task.job.horizon + 1)
}

// ---- one route

// The grid that a task's carriers move on. Crate checks makes one too, of a job and on another fact.
fn grid_of(task: Task) -> Grid
    requires { (task.job.width ≤ 16) × (task.job.height ≤ 16) }
    ensures { (result.width ≡ task.entry.job.width) × (result.height ≡ task.entry.job.height) }
{
    Grid {
        width: task.job.width,
        height: task.job.height,
    }
}

// What a route is sought for: a carrier's start and goal, and H.
fn trip_of(task: Task, carrier: usize) -> Trip
    requires { (carrier < task.job.team.count) × (task.job.team.count ≤ 8) }
    ensures { result ≡ record { start = get_or task.entry.job.team.starts carrier 0; goal = get_or task.entry.job.team.goals carrier 0; horizon = task.entry.job.horizon } }
{
    let team = task.job.team;
    let start = team.starts[carrier] as usize;
    let goal = team.goals[carrier] as usize;
    Trip {
        start,
        goal,
        horizon: task.job.horizon,
    }
}

// Rule 2 for the barred carrier of a child: has it a route under the node's bars and the new one?
fn has_route(
    task: Task,
    node: usize,
    carrier: usize,
    bar: Bar,
    columns: &[u16],
    layers: &mut [u8],
) -> bool
    requires ready { Ready task layers.old }
    requires falls { Falls task.capacity columns.now node }
    requires in_range { carrier < task.job.team.count }
    ensures { RouteSought task.entry columns.now node carrier bar layers.old layers.new result }
{
    let grid = grid_of(task);
    let trip = trip_of(task, carrier);
    let bound = Bound {
        capacity: task.capacity,
        node,
        carrier,
        bar,
    };
    let found = layers::seek_route(task.job.hall, grid, trip, columns, bound, layers);
    found.is_some()
}

// The route that the layers hold, written into the carrier's part of a node's stretch.
fn put_route(task: Task, carrier: usize, layers: &[u8], into: usize, plans: &mut [u8])
    requires readable { Readable task carrier layers.now }
    requires room { into * (task.job.team.count * (task.job.horizon + 1)) + task.job.team.count * (task.job.horizon + 1) ≤ length plans.old }
    ensures { RoutePut task.entry layers.now into carrier plans.old plans.new }
{
    let grid = grid_of(task);
    let trip = trip_of(task, carrier);
    let rows = task.job.horizon + 1;
    let from = into * stretch_of(task) + carrier * rows;
    let to = from + rows;
    writer::write_route(layers, grid, trip, &mut plans[from..to]);
}

// The sum of a node, from the routes in its stretch.
pub fn sum_at(task: Task, node: usize, plans: &[u8]) -> usize
    requires { (task.job.team.count ≤ 8) × (task.job.horizon ≤ 63) × (node * (task.job.team.count * (task.job.horizon + 1)) + task.job.team.count * (task.job.horizon + 1) ≤ length plans.now) }
    ensures { result ≡ sum_in task.entry plans.now node }
{
    let size = stretch_of(task);
    let from = node * size;
    let to = from + size;
    tables::sum_of(&plans[from..to], task.job.team, task.job.horizon)
}

// ---- a child

// The child takes the next number and one record; its other routes are its parent's.
fn make_child(
    task: Task,
    node: usize,
    barred: Barred,
    made: usize,
    columns: &mut [u16],
    plans: &mut [u8],
    layers: &[u8],
)
    requires { ChildDue task layers.now columns.old plans.old node barred.carrier barred.bar made }
    ensures { ChildMade task.entry layers.now node (barred_of barred) made columns.old plans.old columns.new plans.new }
{
    let size = stretch_of(task);
    lent::copy_stretch(plans, node * size, made * size, size);
    put_route(task, barred.carrier, layers, made, plans);
    let sum = sum_at(task, made, plans);
    tables::write_record(
        columns,
        task.capacity,
        made,
        node,
        barred.carrier,
        barred.bar,
        sum,
    );
}

// Rule 7: 'a child whose barred carrier has a route takes the next number and one record; a child without one takes none. If a
// record is due and N are in use, the answer is 9 at once.'
pub fn add_child(
    task: Task,
    node: usize,
    barred: Barred,
    made: usize,
    columns: &mut [u16],
    plans: &mut [u8],
    layers: &mut [u8],
) -> Grown
    requires ready { Ready task layers.old }
    requires sound { Sound (job_on task) task.capacity columns.old plans.old made }
    requires in_range { (node < made) × (barred.carrier < task.job.team.count) }
    requires bar_set { BarSet barred.bar }
    ensures kept { Kept task.entry columns.old plans.old layers.old columns.new plans.new layers.new }
    ensures grown { ChildFact (job_on task.entry) task.entry.capacity node (barred_of barred) made columns.old plans.old columns.new plans.new result }
    ensures tables { ChildTables task.entry node (barred_of barred) made columns.old plans.old columns.new plans.new layers.new result }
{
    if !has_route(task, node, barred.carrier, barred.bar, columns, layers) {
        return Grown::Nothing;
    }
    if made == task.capacity {
        return Grown::Full;
    }
    make_child(task, node, barred, made, columns, plans, layers);
    Grown::Made
}

// ---- the root

// Rule 3 for one carrier: its route without bars, written into the root's stretch.
fn free_route(
    task: Task,
    carrier: usize,
    columns: &[u16],
    plans: &mut [u8],
    layers: &mut [u8],
) -> bool
    requires ready { Ready task layers.old }
    requires room { (8 * task.capacity ≤ length columns.now) × (plans_length (job_on task) task.capacity ≤ length plans.old) × (carrier < task.job.team.count) }
    requires root_free { bar_at task.capacity columns.now 0 ≡ Free }
    ensures { FreeRoute task.entry carrier plans.old layers.old plans.new layers.new result }
{
    if !has_route(task, 0, carrier, Bar::Free, columns, layers) {
        return false;
    }
    put_route(task, carrier, layers, 0, plans);
    true
}

// Each carrier's route without bars, or that one has none.
fn free_routes(task: Task, columns: &[u16], plans: &mut [u8], layers: &mut [u8]) -> bool
    requires ready { Ready task layers.old }
    requires room { (8 * task.capacity ≤ length columns.now) × (plans_length (job_on task) task.capacity ≤ length plans.old) }
    requires root_free { bar_at task.capacity columns.now 0 ≡ Free }
    ensures { FreeRoutes task.entry plans.old layers.old plans.new layers.new result }
{
    for carrier in 0..task.job.team.count {
        if !free_route(task, carrier, columns, plans, layers) {
            return false;
        }
    }
    true
}

// Rule 3: 'The root, number 0, has each carrier's route without bars. If a carrier has none, no root is made'.
pub fn make_root(task: Task, columns: &mut [u16], plans: &mut [u8], layers: &mut [u8]) -> bool
    requires ready { Ready task layers.old }
    requires room { (8 * task.capacity ≤ length columns.old) × (task.capacity * plan_length (job_on task) ≤ length plans.old) }
    ensures kept { Kept task.entry columns.old plans.old layers.old columns.new plans.new layers.new }
    ensures rooted { RootFact (job_on task.entry) task.entry.capacity columns.new plans.new result }
    ensures tables { RootTables task.entry columns.old plans.old columns.new plans.new layers.new result }
{
    tables::write_record(columns, task.capacity, 0, 0, 0, Bar::Free, 0);
    if !free_routes(task, columns, plans, layers) {
        return false;
    }
    let sum = sum_at(task, 0, plans);
    tables::write_record(columns, task.capacity, 0, 0, 0, Bar::Free, sum);
    true
}
