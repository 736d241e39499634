// Has a carrier a route under its bars, and what does the best one cost? Worked out in the lent layers.
// Document 02, P2: 'Among routes of least cost take those with the fewest moves'. The layers are filled twice, each time step by step back
// to 0: first with the step at which the best way on from a cell ends; then, on the ways that end where the best route does, with their
// fewest moves. Crate writer then reads the route off forwards. The first pass begins at a step by which the route has most likely ended,
// and only where it may end later is it begun again at the horizon.
#![tactic(auto)]

ghost use Rattle.std.specs.Prelude.{◌+◌, ◌-◌, ◌*◌, min, max, ◌≤◌, ◌<◌, true, ◌||◌, ◌≡◌, eqb, length, get_or, set, replicate};
ghost use Rattle.lent.specs.Lent.{SameFrom};
ghost use Rattle.lent.specs.Made.{Made};
ghost use Rattle.records.specs.Columns.{Falls};
ghost use Rattle.marks.specs.Marks.{bound_by};
ghost use Rattle.marks.specs.Post.{Layered};
ghost use Rattle.shuts.specs.Post.{lent_hall, RightGrid};
ghost use Rattle.layers.specs.Fill.{one_more_than, paid_for, near_entry, way_by, least_way, level_by, other_half, IsHalf, Copied, LayerMade, mark_for, arrives, elsewhere, ArrivalLaid, RestLaid, PassedOn};
ghost use Rattle.layers.specs.Layers.{apart, away, soon_by};
ghost use Rattle.layers.specs.Post.{Fillable, NoCrossing, SoughtOn, SoughtWhole, is_answer, end_told, SoughtRoute};

use hall::Grid;
use marks::Bound;

// No way, and one that may end later than is looked at: numbers in the lent bytes and no enum, since the compiler takes the least and the
// greatest of many cells at once. `seek_route` tells an Option.
const NO_WAY: u8 = 255;

const LATER: u8 = 254;

// What a route is sought for.
#[derive(Clone, Copy)]
pub struct Trip {
    pub start: usize,
    pub goal: usize,
    pub horizon: usize,
}

// The greatest number of moves, and one more is none.
const MOST: u8 = 254;

// The slate: two halves, each a layer between two pads of the greatest width. So every cell has an entry for each of its moves. It and `from`,
// the half that is read, stay two arguments: of a struct of both, each function that writes would have to promise that it keeps the half.
const PAD: usize = 16;

const HALF: usize = 288;

const SLATE: usize = 576;

// A way round something costs two steps.
const ROUND: usize = 2;

// A pass over the layers: how wide the hall is, and whether some bar forbids a crossing. Whether it counts moves is MOVES, a parameter of each
// function, so that the compiler makes a loop for each kind of pass; not of the struct, since the check takes no `bool` parameter beside a
// ghost field. Whether a crossing is forbidden only the bars at hand tell, so it is a value.
#[derive(Clone, Copy)]
struct Pass {
    width: usize,
    crossing: bool,
    ghost in_range: { (1 ≤ width) × (width ≤ 16) },
}

// Where a layer lies: its first byte in the layers, and the number of its cells. The layers are lent with it, and not the layer alone as a
// slice: all that is said of a pass is said of places in the layers, and what each of its steps writes into a slice would have to be carried
// over to them.
#[derive(Clone, Copy)]
struct Layer {
    base: usize,
    size: usize,
    ghost small: { size ≤ 256 },
}

// ---- one cell

// One more, but no way stays none.
#[tactic(auto, unfolding(crate::specs::Fill::one_more_than))]
pub fn one_more(level: u8) -> u8
    ensures { result ≡ one_more_than level }
{
    level.min(MOST) + 1
}

// Where moves are counted, a move is one more.
#[tactic(auto, unfolding(crate::specs::Fill::paid_for))]
fn paid_for<const MOVES: bool>(level: u8) -> u8
    ensures { result ≡ paid_for MOVES level }
{
    if MOVES { one_more(level) } else { level }
}

// The moves to the left and to the right, which leave the grid from the first and from the last column.
fn sideways(m: usize) -> bool
    ensures { result ≡ (eqb m 1 || eqb m 3) }
{
    m == 1 || m == 3
}

impl Pass {
    // What stands where move m leads to from a cell, in the half of the slate that is read.
    #[tactic(auto, using(crate::proofs::CellLaws::near_facts))]
    fn near(self, slate: &[u8; SLATE], from: usize, v: usize, m: usize) -> u8
        requires { (from ≤ 288) × (v < 256) × (m < 5) }
        ensures { result ≡ get_or slate.now (near_entry self.width (from + 16 + v) m) 0 }
    {
        let at = from + PAD + v;
        slate[at + self.width * hall::down(m) + hall::right(m) - (self.width + 1)]
    }

    // The level that a move leads to, if it is not shut. Up and down need no asking, since no way leads from the pads.
    #[tactic(auto, unfolding(crate::specs::Fill::way_by, crate::specs::Fill::shut_by))]
    fn way_by(
        self,
        slate: &[u8; SLATE],
        shuts: &[u8; shuts::SHUTS],
        from: usize,
        v: usize,
        m: usize,
    ) -> u8
        requires { (from ≤ 288) × (v < 256) × (m < 5) }
        ensures { result ≡ way_by self.crossing slate.now shuts.now self.width (from + 16 + v) v m }
    {
        let level = self.near(slate, from, v, m);
        if sideways(m) || self.crossing {
            return level.max(shuts[m * shuts::CELLS + v]);
        }
        level
    }

    // The least of the ways by all moves, and none is worse than no way; a stay is no move. No cell asks where it stands, so that the
    // compiler may do many cells at once.
    #[tactic(auto, unfolding(crate::specs::Fill::least_way))]
    fn least_way<const MOVES: bool>(
        self,
        slate: &[u8; SLATE],
        shuts: &[u8; shuts::SHUTS],
        from: usize,
        v: usize,
    ) -> u8
        requires { (from ≤ 288) × (v < 256) }
        ensures { result ≡ least_way MOVES self.crossing slate.now shuts.now self.width (from + 16 + v) v }
    {
        let up = self.way_by(slate, shuts, from, v, 0);
        let left = self.way_by(slate, shuts, from, v, 1);
        let stay = self.way_by(slate, shuts, from, v, 2);
        let right = self.way_by(slate, shuts, from, v, 3);
        let down = self.way_by(slate, shuts, from, v, 4);
        let away = up.min(left).min(right.min(down));
        NO_WAY.min(stay).min(paid_for::<MOVES>(away))
    }

    // ---- one layer

    // The level of one cell, into the layers and into the other half of the slate.
    #[tactic(auto, unfolding(crate::specs::Fill::level_by))]
    fn put_level<const MOVES: bool>(
        self,
        shuts: &[u8; shuts::SHUTS],
        v: usize,
        from: usize,
        to: usize,
        slate: &mut [u8; SLATE],
        layers: &mut [u8],
    )
        requires { (v < 256) × (from ≤ 288) × (to < length layers.old) }
        ensures { (layers.new ≡ set layers.old to (level_by MOVES self.crossing slate.old shuts.now self.width from v (get_or layers.old to 0))) × (slate.new ≡ set slate.old (other_half from + 16 + v) (level_by MOVES self.crossing slate.old shuts.now self.width from v (get_or layers.old to 0))) }
    {
        let mark = layers[to].max(shuts[shuts::CLOSED + v]);
        let way = self.least_way::<MOVES>(slate, shuts, from, v);
        let level = mark.max(way);
        layers[to] = level;
        slate[HALF - from + PAD + v] = level;
    }

    // One layer.
    #[tactic(auto, using(crate::proofs::LayerLaws::half_small))]
    fn fill_cells<const MOVES: bool>(
        self,
        shuts: &[u8; shuts::SHUTS],
        layer: Layer,
        from: usize,
        slate: &mut [u8; SLATE],
        layers: &mut [u8],
    )
        requires { (layer.base + layer.size ≤ length layers.old) × IsHalf from }
        ensures { LayerMade MOVES self.crossing shuts.now self.width layer.size layer.base from slate.old layers.old slate.new layers.new }
    {
        for v in 0..layer.size {
            self.put_level::<MOVES>(shuts, v, from, layer.base + v, slate, layers);
        }
    }
}

// ---- one pass: of the steps at which the best ways end, or of the moves on those that end at `last`

// Of the other ways nothing is asked any more: their cells are as good as barred.
#[tactic(auto, unfolding(crate::specs::Fill::mark_for))]
fn only_last(byte: u8, last: u8) -> u8
    ensures { result ≡ mark_for true last byte }
{
    if byte == last { 0 } else { NO_WAY }
}

fn bar_others(last: u8, layer: Layer, layers: &mut [u8])
    requires { layer.base + layer.size ≤ length layers.old }
    ensures { Made layer.base layer.size (λ v byte. mark_for true last byte) layers.old layers.new }
{
    for v in 0..layer.size {
        layers[layer.base + v] = only_last(layers[layer.base + v], last);
    }
}

// What counts as a mark in this pass.
#[tactic(auto, unfolding(crate::specs::Fill::mark_for))]
fn lay_marks<const MOVES: bool>(last: usize, layer: Layer, layers: &mut [u8])
    requires { (last ≤ 63) × (layer.base + layer.size ≤ length layers.old) }
    ensures { Made layer.base layer.size (λ v byte. mark_for MOVES last byte) layers.old layers.new }
{
    if MOVES {
        bar_others(last as u8, layer, layers);
    }
}

// The level of the goal at the step where the pass begins, and of any other cell.
#[tactic(auto, unfolding(crate::specs::Fill::arrives))]
fn arrives<const MOVES: bool>(last: usize) -> u8
    requires { last ≤ 63 }
    ensures { result ≡ arrives MOVES last }
{
    if MOVES { 0 } else { last as u8 }
}

#[tactic(auto, unfolding(crate::specs::Fill::elsewhere))]
fn elsewhere<const MOVES: bool>() -> u8
    ensures { result ≡ elsewhere MOVES }
{
    if MOVES { NO_WAY } else { LATER }
}

// The layer as if a way from each cell might end later, or none, unless a carrier may not stand there.
fn lay_rest(shuts: &[u8; shuts::SHUTS], rest: u8, layer: Layer, layers: &mut [u8])
    requires { layer.base + layer.size ≤ length layers.old }
    ensures { Made layer.base layer.size (λ v byte. max rest (max byte (get_or shuts.now (1280 + v) 0))) layers.old layers.new }
{
    for v in 0..layer.size {
        let closed = shuts[shuts::CLOSED + v];
        layers[layer.base + v] = rest.max(layers[layer.base + v].max(closed));
    }
}

// A layer, into the first half of the slate.
fn copy_layer(layers: &[u8], layer: Layer, slate: &mut [u8; SLATE])
    requires { layer.base + layer.size ≤ length layers.now }
    ensures { Made 16 layer.size (λ v byte. get_or layers.now (layer.base + v) 0) slate.old slate.new }
{
    let bytes = &layers[layer.base..layer.base + layer.size];
    slate[PAD..PAD + layer.size].copy_from_slice(bytes);
}

// The layer at the step where the pass begins: a way ends there only on the goal, if a carrier may stand on it; from elsewhere it may end
// later.
fn lay_arrival(
    shuts: &[u8; shuts::SHUTS],
    goal: usize,
    level: u8,
    rest: u8,
    layer: Layer,
    slate: &mut [u8; SLATE],
    layers: &mut [u8],
)
    requires sizes_fit { (goal < layer.size) × (layer.base + layer.size ≤ length layers.old) }
    requires slate_clear { slate.old ≡ replicate 576 255 }
    ensures { ArrivalLaid goal level rest (λ v. get_or shuts.now (1280 + v) 0) layer.size layer.base layers.old slate.new layers.new }
{
    let mark = layers[layer.base + goal].max(shuts[shuts::CLOSED + goal]);
    let there = level.max(mark);
    lay_rest(shuts, rest, layer, layers);
    layers[layer.base + goal] = there;
    copy_layer(layers, layer, slate);
}

// On the goal, where all of the rest is on it too, the way ended when it came there.
fn rest_end<const MOVES: bool>(
    goal: usize,
    t: usize,
    layer: Layer,
    from: usize,
    slate: &mut [u8; SLATE],
    layers: &mut [u8],
)
    requires sizes_fit { (goal < layer.size) × (t < 63) × (layer.base + layer.size ≤ length layers.old) × IsHalf from }
    requires copied { Copied layer.size layer.base from slate.old layers.old }
    ensures { RestLaid MOVES goal t layer.size layer.base from slate.old layers.old slate.new layers.new }
{
    if MOVES {
        return;
    }
    if layers[layer.base + goal] != (t + 1) as u8 {
        return;
    }
    layers[layer.base + goal] = t as u8;
    slate[from + PAD + goal] = t as u8;
}

// A pass from step `last` back to 0: without MOVES the first, for the steps at which the best ways end, with them the second, for the
// moves on the ways that end at `last`.
fn fill_back<const MOVES: bool>(
    floor: &[u8; shuts::SHUTS],
    grid: Grid,
    trip: Trip,
    last: usize,
    crossing: bool,
    layers: &mut [u8],
)
    requires { Fillable grid trip last layers.old × NoCrossing crossing (grid.width * grid.height) trip.horizon layers.old }
    ensures { PassedOn grid floor.now MOVES trip.goal ((trip.horizon + 1) * (grid.width * grid.height)) last layers.old layers.new × SameFrom ((last + 1) * (grid.width * grid.height)) layers.old layers.new }
{
    let size = grid.width * grid.height;
    let plane = (trip.horizon + 1) * size;
    let pass = Pass {
        width: grid.width,
        crossing,
    };
    let mut shuts = *floor;
    let mut slate = [NO_WAY; SLATE];
    let first = Layer {
        base: last * size,
        size,
    };
    lay_marks::<MOVES>(last, first, layers);
    let level = arrives::<MOVES>(last);
    let rest = elsewhere::<MOVES>();
    lay_arrival(&shuts, trip.goal, level, rest, first, &mut slate, layers);
    let mut from = 0;
    for t in (0..last).rev() {
        let base = t * size;
        let layer = Layer { base, size };
        shuts::lay_shuts(crossing, floor, layers, plane + base, size, &mut shuts);
        lay_marks::<MOVES>(last, layer, layers);
        pass.fill_cells::<MOVES>(&shuts, layer, from, &mut slate, layers);
        from = HALF - from;
        rest_end::<MOVES>(trip.goal, t, layer, from, &mut slate, layers);
    }
}

// ---- the two passes

// The steps that the goal is away from the start, if nothing is in the way.
fn away(width: usize, trip: Trip) -> usize
    requires { (1 ≤ width) × (trip.start < 256) × (trip.goal < 256) }
    ensures { result ≡ away width trip.start trip.goal }
{
    let rows = (trip.start / width).abs_diff(trip.goal / width);
    let columns = (trip.start % width).abs_diff(trip.goal % width);
    rows + columns
}

// A step by which the best route has most likely ended, and from which on no bar forbids anything.
#[tactic(auto, unfolding(crate::specs::Layers::soon_by))]
fn soon_by(width: usize, trip: Trip, until: usize) -> usize
    requires { (1 ≤ width) × (trip.start < 256) × (trip.goal < 256) × (until ≤ 64) }
    ensures { result ≡ soon_by width trip.start trip.goal trip.horizon until }
{
    let direct = away(width, trip);
    trip.horizon.min(until.max(direct) + ROUND)
}

// Both passes, for a route that ends by step `late`: what is found of it.
fn seek_by(
    floor: &[u8; shuts::SHUTS],
    grid: Grid,
    trip: Trip,
    late: usize,
    crossing: bool,
    layers: &mut [u8],
) -> u8
    requires { Fillable grid trip late layers.old × NoCrossing crossing (grid.width * grid.height) trip.horizon layers.old × (trip.start < grid.width * grid.height) }
    ensures { SoughtOn grid floor.now trip late layers.old layers.new result }
{
    fill_back::<false>(floor, grid, trip, late, crossing, layers);
    let end = layers[trip.start];
    if late < end as usize {
        return end;
    }
    fill_back::<true>(floor, grid, trip, end as usize, crossing, layers);
    end
}

// The same once more, from marks laid anew and as far as the horizon.
fn seek_whole(
    floor: &[u8; shuts::SHUTS],
    grid: Grid,
    trip: Trip,
    columns: &[u16],
    bound: Bound,
    layers: &mut [u8],
) -> u8
    requires layers_and_records { Layered grid.width grid.height trip.horizon layers.old × Falls bound.capacity columns.now bound.node }
    requires ends_inside { (trip.start < grid.width * grid.height) × (trip.goal < grid.width * grid.height) }
    ensures { SoughtWhole grid floor.now trip (bound_by bound.capacity columns.now bound.node bound.carrier bound.bar) layers.old layers.new result }
{
    let bearing = marks::mark_all(layers, grid, trip.horizon, columns, bound);
    seek_by(floor, grid, trip, trip.horizon, bearing.crossing, layers)
}

// What is found by step `soon` is the answer, unless the route may end later.
#[tactic(auto, unfolding(crate::specs::Post::is_answer))]
fn is_answer(end: u8, soon: usize, horizon: usize) -> bool
    ensures { result ≡ is_answer end soon horizon }
{
    end != LATER || soon == horizon
}

// What an end tells: a cost, or that there is no way.
#[tactic(auto, unfolding(crate::specs::Post::end_told))]
fn end_told(end: u8) -> Option<usize>
    ensures { result ≡ end_told end }
{
    (end < LATER).then_some(end as usize)
}

// Rule 2: the least cost of a carrier's routes under the bars that bind it at a node and a new one, if it has any. The layers then hold
// what is wanted to read the route off (`writer::write_route`). The hall's bytes and the grid stay two: the bytes are read once,
// for the floor, and the grid goes on alone.
pub fn seek_route(
    hall: &[u8],
    grid: Grid,
    trip: Trip,
    columns: &[u16],
    bound: Bound,
    layers: &mut [u8],
) -> Option<usize>
    requires grid_and_layers { RightGrid grid hall.now × Layered grid.width grid.height trip.horizon layers.old }
    requires trip_and_records { (trip.start < grid.width * grid.height) × (trip.goal < grid.width * grid.height) × Falls bound.capacity columns.now bound.node }
    ensures { SoughtRoute (lent_hall grid hall.now) (bound_by bound.capacity columns.now bound.node bound.carrier bound.bar) trip.start trip.goal trip.horizon layers.old layers.new result }
{
    let mut floor = [0; shuts::SHUTS];
    shuts::lay_floor(hall, grid, &mut floor);
    let bearing = marks::mark_all(layers, grid, trip.horizon, columns, bound);
    let soon = soon_by(grid.width, trip, bearing.until);
    let end = seek_by(&floor, grid, trip, soon, bearing.crossing, layers);
    if is_answer(end, soon, trip.horizon) {
        return end_told(end);
    }
    let last = seek_whole(&floor, grid, trip, columns, bound, layers);
    end_told(last)
}
