// The bars of a node, marked in the lent layers, so that filling them never walks the ancestors. The layers are two planes, each with a
// byte for each step and cell: in the first a cell that is barred at a step is marked, in the second the moves that are barred there.
#![tactic(auto)]

ghost use Rattle.std.specs.Prelude.{◌+◌, ◌^◌, min, max, ◌≤◌, ◌<◌, ◌||◌, [], ◌∷◌, ◌≡◌};
ghost use Rattle.routes.specs.Bars.{bars_for};
ghost use Rattle.routes.specs.declared.Bar.TheVariants.{Stay, Cross};
ghost use Rattle.records.specs.Columns.{own_bars, chain_of, Falls};
ghost use Rattle.marks.specs.Marks.{bound_by, bearing_of, both_of};
ghost use Rattle.marks.specs.Post.{Layered, MarkedMore, MarkedAll, BoundAbove, MoveTo, with_digit};

use hall::Grid;
use routes::Bar;

// The mark of a cell that is barred at a step.
const BARRED: u8 = 255;

// Whose bars are asked for: those that bind a carrier at a node of N records, and a new one.
#[derive(Clone, Copy)]
pub struct Bound {
    pub capacity: usize,
    pub node: usize,
    pub carrier: usize,
    pub bar: Bar,
}

// What bars are like: whether one of them forbids a crossing, and a step from which on none forbids anything. No bars: neither.
#[derive(Clone, Copy, Default)]
pub struct Bearing {
    pub crossing: bool,
    pub until: usize,
}

impl Bearing {
    // What some bars and others are like together. `|` and not `||`: no branch for each bar of a chain.
    #[tactic(auto, unfolding(crate::specs::Marks::both_of))]
    fn together(self, other: Bearing) -> Bearing
        ensures { result ≡ both_of self other }
    {
        Bearing {
            crossing: self.crossing | other.crossing,
            until: self.until.max(other.until),
        }
    }
}

// The step after one, or after the last.
fn after(step: usize, h: usize) -> usize
    requires { h ≤ 63 }
    ensures { result ≡ min step h + 1 }
{
    step.min(h) + 1
}

// The layers are lent beside the grid and h, and not in one struct with them: each of its methods would have to promise that grid and h
// stay as they were, which by value is plain.

// 'may not be on a cell from step a to step b'; steps past h are dropped, which changes nothing.
fn mark_stay(layers: &mut [u8], grid: Grid, h: usize, cell: usize, first: usize, last: usize)
    requires { Layered grid.width grid.height h layers.old }
    ensures { MarkedMore grid.width grid.height h (Stay cell first last ∷ []) layers.old layers.new }
{
    let size = grid.size();
    if size <= cell {
        return;
    }
    let end = last.min(h);
    // Not `for t in first..=end`: the compiler would unroll it, and a route with 150 stays of one step, in two rows of eight, would take
    // a fourteenth more instructions.
    let mut t = first;
    while t <= end {
        layers[t * size + cell] = BARRED;
        t += 1;
    }
}

// The binary digit of each move, as a table: the edit `digit_of_another_move` stands on it. Crate shuts, above, reads a digit (`has_digit`).
const DIGITS: [u8; 5] = [1, 2, 4, 8, 16];

// The digit of move m.
fn digit_of(m: usize) -> u8
    requires { m < 5 }
    ensures { result ≡ 2 ^ m }
{
    DIGITS[m]
}

// Digits with that of move m.
#[tactic(auto, using(crate::proofs::Digits::fits_at), unfolding(crate::specs::Post::with_digit))]
fn with_digit(mark: u8, m: usize) -> u8
    requires { m < 5 }
    ensures { result ≡ with_digit mark m }
{
    if (mark >> m) % 2 == 0 {
        return mark + digit_of(m);
    }
    mark
}

// The move that leads from one cell to another, if one does.
#[tactic(auto, unfolding(crate::specs::Post::MoveTo))]
fn move_to(grid: Grid, from: usize, to: usize) -> Option<usize>
    requires { (1 ≤ grid.width) × (from < 256) }
    ensures { MoveTo grid.width grid.height from to result }
{
    let row = from / grid.width;
    let col = from % grid.width;
    (0..hall::MOVE_COUNT).find(|m| grid.lands_on(row, col, *m, to))
}

// 'may not go from one cell to another between t and t + 1'
#[tactic(auto, using(crate::proofs::OneMove::one_leads))]
fn mark_cross(layers: &mut [u8], grid: Grid, h: usize, from: usize, to: usize, step: usize)
    requires { Layered grid.width grid.height h layers.old }
    ensures { MarkedMore grid.width grid.height h (Cross from to step ∷ []) layers.old layers.new }
{
    let size = grid.size();
    if h < step || size <= from {
        return;
    }
    if let Some(m) = move_to(grid, from, to) {
        let place = (h + 1) * size + step * size + from;
        layers[place] = with_digit(layers[place], m);
    }
}

// One bar more, of either kind or none; and what it is like.
fn mark_bar(layers: &mut [u8], grid: Grid, h: usize, bar: Bar) -> Bearing
    requires { Layered grid.width grid.height h layers.old }
    ensures { MarkedMore grid.width grid.height h (bar ∷ []) layers.old layers.new × (result ≡ bearing_of h (bar ∷ [])) }
{
    match bar {
        Bar::Free => Bearing::default(),
        Bar::Stay { cell, first, last } => {
            mark_stay(layers, grid, h, cell, first, last);
            Bearing {
                crossing: false,
                until: after(last, h),
            }
        }
        Bar::Cross { from, to, step } => {
            mark_cross(layers, grid, h, from, to, step);
            Bearing {
                crossing: true,
                until: after(step, h),
            }
        }
    }
}

// The bar in a node's own record, if it binds this carrier.
fn mark_own(layers: &mut [u8], grid: Grid, h: usize, columns: &[u16], bound: Bound) -> Bearing
    requires { Layered grid.width grid.height h layers.old × Falls bound.capacity columns.now bound.node }
    ensures { MarkedMore grid.width grid.height h (bars_for bound.carrier (own_bars bound.capacity columns.now bound.node)) layers.old layers.new × (result ≡ bearing_of h (bars_for bound.carrier (own_bars bound.capacity columns.now bound.node))) }
{
    let whose = records::entry_at(columns, bound.capacity, records::CARRIER, bound.node);
    if whose != bound.carrier {
        return Bearing::default();
    }
    let bar = records::bar_at(columns, bound.capacity, bound.node);
    mark_bar(layers, grid, h, bar)
}

// 'or in the record of one of its ancestors': the nearest ancestor whose bar is for the carrier, or the root. The layers
// are not handed up, nor what only marking asks for, so that a level takes 32 bytes of stack.
fn bound_above(columns: &[u16], capacity: usize, node: usize, carrier: usize) -> usize
    requires { Falls capacity columns.now node × (0 < node) }
    ensures { BoundAbove capacity columns.now node carrier result }
{
    let parent = records::entry_at(columns, capacity, records::PARENT, node);
    if parent == 0 {
        return parent;
    }
    if records::entry_at(columns, capacity, records::CARRIER, parent) == carrier {
        return parent;
    }
    bound_above(columns, capacity, parent, carrier)
}

// 'A bar binds a node if it stands in that node's record', or above it: each record that has one for the carrier is
// marked, up to the root's. The loop counts nothing: it goes from parent to parent, so no range fits.
fn mark_up(layers: &mut [u8], grid: Grid, h: usize, columns: &[u16], bound: Bound) -> Bearing
    requires { Layered grid.width grid.height h layers.old × Falls bound.capacity columns.now bound.node }
    ensures { MarkedMore grid.width grid.height h (bars_for bound.carrier (chain_of bound.capacity columns.now bound.node)) layers.old layers.new × (result ≡ bearing_of h (bars_for bound.carrier (chain_of bound.capacity columns.now bound.node))) }
{
    let mut bearing = Bearing::default();
    let mut at = bound.node;
    while at != 0 {
        let own = mark_own(layers, grid, h, columns, Bound { node: at, ..bound });
        bearing = bearing.together(own);
        at = bound_above(columns, bound.capacity, at, bound.carrier);
    }
    let root = mark_own(layers, grid, h, columns, Bound { node: at, ..bound });
    bearing.together(root)
}

// All bars that bind a carrier at a node, and a new one; and what they are like.
pub fn mark_all(layers: &mut [u8], grid: Grid, h: usize, columns: &[u16], bound: Bound) -> Bearing
    requires { Layered grid.width grid.height h layers.old × Falls bound.capacity columns.now bound.node }
    ensures { MarkedAll grid.width grid.height h (bound_by bound.capacity columns.now bound.node bound.carrier bound.bar) layers.old layers.new × (result ≡ bearing_of h (bound_by bound.capacity columns.now bound.node bound.carrier bound.bar)) }
{
    let plane = (h + 1) * grid.size();
    lent::clear(layers, plane + plane, 0);
    let above = mark_up(layers, grid, h, columns, bound);
    let bar = bound.bar;
    let new = mark_bar(layers, grid, h, bar);
    new.together(above)
}
