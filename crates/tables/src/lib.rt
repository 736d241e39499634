// The planner's leaves over the lent tables: the open node of least sum, a record written, the cost and the sum of routes.
#![tactic(auto)]

ghost use Rattle.std.specs.Prelude.{◌+◌, ◌*◌, ◌≤◌, ◌<◌, ◌≡◌, ◌≢◌, IfNone, IfSome, drop, length, get_or, set};
ghost use Rattle.std.specs.List.{All};
ghost use Rattle.lists.specs.Lists.{sum_to};
ghost use Rattle.routes.specs.Route.{cost, route_in};
ghost use Rattle.tables.specs.Post.{Room, LeastFact, code_of, Fitting, Entered, Recorded};

use job::Team;
use routes::Bar;

// 'Record columns, 16-bit': the parent, the kind of bar, the barred carrier, three numbers of the bar, the sum, and whether
// the node is open. Column after column, each with an entry for each of the N nodes.
pub const COLUMNS: usize = 8;

// The columns are lent memory of 16-bit numbers, laid out for the caller in C: so the mark that a node is open and the kinds of
// bar are numbers in them, and a `Code` is a bar as it stands there.
const IS_OPEN: u16 = 1;

const IS_CLOSED: u16 = 0;

// The kind of no bar; the others are those of `records`.
const NO_BAR: usize = 0;

// The kind of a bar and its three numbers, as a record has them.
#[derive(Clone, Copy)]
pub struct Code {
    pub kind: usize,
    pub first: usize,
    pub second: usize,
    pub third: usize,
}

// One node more: it is taken only if its sum is smaller, since its number is greater.
fn better(columns: &[u16], capacity: usize, best: Option<usize>, node: usize) -> Option<usize>
    requires room { Room capacity columns.now node }
    requires least { LeastFact capacity columns.now node best }
    ensures { LeastFact capacity columns.now (node + 1) result }
{
    if columns[records::OPEN * capacity + node] == IS_CLOSED {
        return best;
    }
    match best {
        Some(x)
            if columns[records::SUM * capacity + x] <= columns[records::SUM * capacity + node] => {
            best
        }
        _ => Some(node),
    }
}

// Rule 4: 'the open node of least sum, then of least number', among the first `made`.
pub fn least_open(columns: &[u16], capacity: usize, made: usize) -> Option<usize>
    requires { (made ≤ capacity) × (capacity ≤ 1024) × (8 * capacity ≤ length columns.now) }
    ensures { LeastFact capacity columns.now made result }
{
    let mut best = None;
    for node in 0..made {
        best = better(columns, capacity, best, node);
    }
    best
}

// The node is open no more.
pub fn close(columns: &mut [u16], capacity: usize, node: usize)
    requires { Room capacity columns.old node }
    ensures { columns.new ≡ set columns.old (7 * capacity + node) 0 }
{
    columns[records::OPEN * capacity + node] = IS_CLOSED;
}

// A bar in numbers.
impl From<Bar> for Code {
    ghost from_gives = { λ bar code. code ≡ code_of bar };

    fn from(bar: Bar) -> Code {
        match bar {
            Bar::Free => Code {
                kind: NO_BAR,
                first: 0,
                second: 0,
                third: 0,
            },
            Bar::Stay { cell, first, last } => Code {
                kind: records::STAY,
                first: cell,
                second: first,
                third: last,
            },
            Bar::Cross { from, to, step } => Code {
                kind: records::CROSSING,
                first: from,
                second: to,
                third: step,
            },
        }
    }
}

// The eight entries of a node, a value for each column.
fn fill_record(columns: &mut [u16], capacity: usize, node: usize, values: [u16; 8])
    requires { Room capacity columns.old node }
    ensures { Entered capacity columns.old node values 8 columns.new }
{
    for (column, value) in values.iter().enumerate() {
        columns[column * capacity + node] = *value;
    }
}

// The record of an open node, its values in the order of the columns.
pub fn write_record(
    columns: &mut [u16],
    capacity: usize,
    node: usize,
    parent: usize,
    carrier: usize,
    bar: Bar,
    sum: usize,
)
    requires room { Room capacity columns.old node }
    requires fitting { Fitting parent carrier bar sum }
    ensures { Recorded capacity columns.old node parent carrier bar sum columns.new }
{
    let code = Code::from(bar);
    let values: [u16; 8] = [
        parent as u16,
        code.kind as u16,
        carrier as u16,
        code.first as u16,
        code.second as u16,
        code.third as u16,
        sum as u16,
        IS_OPEN,
    ];
    fill_record(columns, capacity, node, values);
}

// The last step at which a route is not on its goal.
fn last_elsewhere(route: &[u8], goal: u8) -> Option<usize>
    ensures none { IfNone result (All (λ v. v ≡ goal) route.now) }
    ensures some { IfSome result (λ i. i < length route.now) }
    ensures other { IfSome result (λ i. get_or route.now i 0 ≢ goal) }
    ensures rest { IfSome result (λ i. All (λ v. v ≡ goal) (drop (i + 1) route.now)) }
{
    route.iter().rposition(|cell| *cell != goal)
}

// 'Its cost is the least step from which it is on its goal at every step up to H.'
#[tactic(auto, using(crate::proofs::Costs::cost_stays, crate::proofs::Costs::cost_last))]
pub fn route_cost(route: &[u8], goal: u8) -> usize
    ensures { result ≡ cost goal route.now }
{
    match last_elsewhere(route, goal) {
        Some(last) => last + 1,
        None => 0,
    }
}

// 'Its sum is the total of the costs', of the routes in a stretch.
pub fn sum_of(stretch: &[u8], team: Team, h: usize) -> usize
    requires { (team.count ≤ 8) × (h ≤ 63) × (team.count * (h + 1) ≤ length stretch.now) }
    ensures { result ≡ sum_to team.count (λ i. cost (get_or team.goals i 0) (route_in h stretch.now i)) }
{
    let size = h + 1;
    let mut total = 0;
    for i in 0..team.count {
        let start = i * size;
        total += route_cost(&stretch[start..start + size], team.goals[i]);
    }
    total
}
