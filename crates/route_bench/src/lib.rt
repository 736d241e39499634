// The best route of a carrier, for the benchmark: its arguments are looked at here, so that any may be handed in. Crate route_bench_c
// exports it to C.
#![tactic(auto)]

ghost use Rattle.std.specs.Prelude.{◌*◌, ◌≤◌, ◌<◌, ◌≡◌, length, unwrap_or};
ghost use Rattle.routes.specs.declared.Bar.TheVariants.{Free};
ghost use Rattle.records.specs.Columns.{Falls};
ghost use Rattle.route_bench.specs.Answer.{Tells, RightFloor, RightRoom, RightArguments, hall_of, bars_at, Told, Answered};

use hall::Grid;
use layers::Trip;
use marks::Bound;
use routes::Bar;

// What C is told in place of a cost: there is no route, and the arguments are not right.
const NO_ROUTE: usize = 255;

const REFUSED: usize = 254;

const COLUMN_COUNT: usize = 8;

// A byte for each cell, and a start and a goal inside?
#[tactic(auto, unfolding(crate::specs::Answer::Tells))]
fn right_floor(hall: &[u8], grid: Grid, trip: Trip) -> bool
    requires { (1 ≤ grid.width) × (1 ≤ grid.height) }
    ensures { Tells (RightFloor hall.now grid.width grid.height trip.start trip.goal) result }
{
    let size = grid.size();
    if hall.len() != size || size <= trip.goal {
        return false;
    }
    trip.start < size
}

// Does each node from 1 to `node` have a parent of a smaller number?
fn parents_fall(columns: &[u16], capacity: usize, node: usize) -> bool
    requires { (node < capacity) × (capacity ≤ 1024) × (8 * capacity ≤ length columns.now) }
    ensures { Tells (Falls capacity columns.now node) result }
{
    for y in 1..=node {
        if y <= records::entry_at(columns, capacity, records::PARENT, y) {
            return false;
        }
    }
    true
}

#[tactic(auto, unfolding(crate::specs::Answer::Tells))]
fn right_records(columns: &[u16], capacity: usize, node: usize) -> bool
    ensures { Tells (Falls capacity columns.now node) result }
{
    if job::MOST_RECORDS < capacity || capacity <= node {
        return false;
    }
    if columns.len() < COLUMN_COUNT * capacity {
        return false;
    }
    parents_fall(columns, capacity, node)
}

#[tactic(auto, using(hall::proofs::HallCode::layers_small), unfolding(crate::specs::Answer::Tells))]
fn right_room(size: usize, h: usize, layers: &[u8], stretch: &[u8]) -> bool
    requires { size ≤ 256 }
    ensures { Tells (RightRoom size h layers.now stretch.now) result }
{
    if job::MOST_HORIZON < h || layers.len() < 2 * ((h + 1) * size) {
        return false;
    }
    stretch.len() == h + 1
}

#[tactic(auto, using(hall::proofs::HallCode::area_small), unfolding(crate::specs::Answer::Tells))]
fn right_arguments(
    hall: &[u8],
    grid: Grid,
    trip: Trip,
    columns: &[u16],
    bound: Bound,
    layers: &[u8],
    stretch: &[u8],
) -> bool
    requires { (1 ≤ grid.width) × (1 ≤ grid.height) }
    ensures { Tells (RightArguments hall.now grid.width grid.height trip.start trip.goal trip.horizon columns.now bound.capacity bound.node layers.now stretch.now) result }
{
    if !right_floor(hall, grid, trip) || !right_records(columns, bound.capacity, bound.node) {
        return false;
    }
    right_room(grid.size(), trip.horizon, layers, stretch)
}

// Rule 2, as document 02, P2, has it: the cost of the best route under the bars that bind a carrier at a node, and the route in the
// stretch.
fn best_route(
    hall: &[u8],
    grid: Grid,
    trip: Trip,
    columns: &[u16],
    bound: Bound,
    layers: &mut [u8],
    stretch: &mut [u8],
) -> Option<usize>
    requires right { RightArguments hall.now grid.width grid.height trip.start trip.goal trip.horizon columns.now bound.capacity bound.node layers.old stretch.old }
    requires no_bar_more { bound.bar ≡ Free }
    ensures { Told (hall_of grid.width grid.height hall.now) (bars_at bound.capacity columns.now bound.node bound.carrier) trip.start trip.goal trip.horizon layers.old layers.new stretch.old stretch.new (unwrap_or result 255) }
{
    let cost = layers::seek_route(hall, grid, trip, columns, bound, layers)?;
    writer::write_route(layers, grid, trip, stretch);
    Some(cost)
}

// The same for any arguments: 255 where there is no route, 254 where they are not right.
#[tactic(auto, unfolding(hall::specs::Hall::wrong_side, crate::specs::Answer::Tells))]
pub fn adfulmise_best_route(
    hall: &[u8],
    width: usize,
    height: usize,
    start: usize,
    goal: usize,
    h: usize,
    columns: &[u16],
    capacity: usize,
    node: usize,
    carrier: usize,
    layers: &mut [u8],
    stretch: &mut [u8],
) -> usize
    ensures { Answered (RightArguments hall.now width height start goal h columns.now capacity node layers.old stretch.old) (hall_of width height hall.now) (bars_at capacity columns.now node carrier) start goal h layers.old layers.new stretch.old stretch.new result }
{
    let Some(grid) = Grid::new(width, height) else {
        return REFUSED;
    };
    let trip = Trip {
        start,
        goal,
        horizon: h,
    };
    let bound = Bound {
        capacity,
        node,
        carrier,
        bar: Bar::Free,
    };
    if !right_arguments(hall, grid, trip, columns, bound, layers, stretch) {
        return REFUSED;
    }
    best_route(hall, grid, trip, columns, bound, layers, stretch).unwrap_or(NO_ROUTE)
}
