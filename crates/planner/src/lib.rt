// The planner: document 01's tree as an instance of the search, its answers, and what the lent tables hold afterwards.
#![tactic(auto)]

ghost use Rattle.std.specs.Prelude.{◌+◌, ◌*◌, ◌≤◌, ◌<◌, ◌≡◌, Err, OnOk, OnErr, length, get_or};
ghost use Rattle.job.specs.Job.{plan_length};
ghost use Rattle.job.specs.Team.{lent_job};
ghost use Rattle.clashes.specs.Find.{first_clash};
ghost use Rattle.tree.specs.Plan.{cells_of};
ghost use Rattle.tree.specs.Tree.{clash_of, tree};
ghost use Rattle.children.specs.Steps.{job_on, Ready, Kept, BarSet, barred_of};
ghost use Rattle.tables.specs.State.{routes_in, stretch_at, node_at, Sound};
ghost use Rattle.tables.specs.Tables.{columns_length, plans_length, layers_length, needed_length, first_short};
ghost use Rattle.planner.specs.Post.{Planned};
ghost use Rattle.planner.specs.declared.answer.Denial.TheVariants.{Short};
ghost use Rattle.planner.specs.Steps.{Limits, Placed, OneFact, TwoFact, stay_bars, cross_bars, BarsFit, PartFact, SplitFact, TurnFact, EndFact, tree_from, EndPlaced, ToldFact, Cleared, Roomy, RanFact, lengths_of};

use children::{Barred, Grown, Task};
use clashes::Clash;
use job::LentJob;
use routes::Bar;

mod answer;

pub use answer::{Denial, Plan};

// The new bars of a split's two children: 'child one bars i and child two bars j'.
#[derive(Clone, Copy)]
pub struct Bars {
    pub one: Barred,
    pub two: Barred,
}

// How a turn of the search goes: four cases of rules 4 and 7, of which records used up is one and no error that ends the rest by itself
// (`Full` is told with N, after the tables are cleared). As a Result the three others would stand in an enum of their own, no plainer.
#[derive(Clone, Copy)]
pub enum Turn {
    Spent,
    Clear { node: usize },
    Full,
    On { made: usize },
}

// How the search ends: three cases, kept beside one another as those of a turn.
#[derive(Clone, Copy)]
pub enum End {
    Spent { made: usize },
    Clear { node: usize, made: usize },
    Full,
}

// One child more, and the turn goes on.
fn add_one(
    task: Task,
    node: usize,
    barred: Barred,
    made: usize,
    columns: &mut [u16],
    plans: &mut [u8],
    layers: &mut [u8],
) -> Turn
    requires ready { Ready task layers.old }
    requires sound { Sound (job_on task) task.capacity columns.old plans.old made }
    requires in_range { (node < made) × (barred.carrier < task.job.team.count) }
    requires bar_set { BarSet barred.bar }
    ensures kept { Kept task.entry columns.old plans.old layers.old columns.new plans.new layers.new }
    ensures grown { OneFact (job_on task.entry) task.entry.capacity node (barred_of barred) made columns.old plans.old columns.new plans.new result }
{
    let grown = children::add_child(task, node, barred, made, columns, plans, layers);
    match grown {
        Grown::Nothing => Turn::On { made },
        Grown::Made => Turn::On { made: made + 1 },
        Grown::Full => Turn::Full,
    }
}

// The two children of a split, in that order.
fn add_two(
    task: Task,
    node: usize,
    bars: Bars,
    made: usize,
    columns: &mut [u16],
    plans: &mut [u8],
    layers: &mut [u8],
) -> Turn
    requires ready { Ready task layers.old }
    requires sound { Sound (job_on task) task.capacity columns.old plans.old made }
    requires in_range { node < made }
    requires bars_fit { BarsFit task bars }
    ensures kept { Kept task.entry columns.old plans.old layers.old columns.new plans.new layers.new }
    ensures grown { TwoFact (job_on task.entry) task.entry.capacity node (barred_of bars.one) (barred_of bars.two) made columns.old plans.old columns.new plans.new result }
{
    let two = bars.two;
    let first = children::add_child(task, node, bars.one, made, columns, plans, layers);
    match first {
        Grown::Nothing => add_one(task, node, two, made, columns, plans, layers),
        Grown::Made => add_one(task, node, two, made + 1, columns, plans, layers),
        Grown::Full => Turn::Full,
    }
}

// The node is taken: it is open no more, and has its two children.
fn part(
    task: Task,
    node: usize,
    bars: Bars,
    made: usize,
    columns: &mut [u16],
    plans: &mut [u8],
    layers: &mut [u8],
) -> Turn
    requires ready { Ready task layers.old }
    requires sound { Sound (job_on task) task.capacity columns.old plans.old made }
    requires in_range { node < made }
    requires bars_fit { BarsFit task bars }
    ensures kept { Kept task.entry columns.old plans.old layers.old columns.new plans.new layers.new }
    ensures grown { PartFact (job_on task.entry) task.entry.capacity node (barred_of bars.one) (barred_of bars.two) made columns.old plans.old columns.new plans.new result }
{
    tables::close(columns, task.capacity, node);
    add_two(task, node, bars, made, columns, plans, layers)
}

// The cell of a carrier at a step, in a node's stretch. Crates checks and clashes have a cell of their own, of a plan and on other facts.
fn cell_of(task: Task, node: usize, carrier: usize, step: usize, plans: &[u8]) -> usize
    requires placed { Placed task plans.now node }
    requires in_range { (carrier < task.job.team.count) × (step ≤ task.job.horizon) }
    ensures { (result ≡ cells_of (routes_in (job_on task.entry) (stretch_at (job_on task.entry) plans.now node)) carrier step) × (result < 256) }
{
    plans[node * children::stretch_of(task) + carrier * (task.job.horizon + 1) + step] as usize
}

// Rule 6, for a meeting on cell v: 'i is barred from e to e + slip of j, j from e to e + slip of i, the earlier carrier in child one.'
fn stay_bars(slips: [u8; 8], i: usize, j: usize, v: usize, e: usize) -> Bars
    requires { (i < 8) × (j < 8) × (e ≤ 63) × (get_or slips i 0 ≤ 4) × (get_or slips j 0 ≤ 4) }
    ensures { result ≡ stay_bars (λ c. get_or slips c 0) i j v e }
{
    let one = Barred {
        carrier: i,
        bar: Bar::Stay {
            cell: v,
            first: e,
            last: e + slips[j] as usize,
        },
    };
    let two = Barred {
        carrier: j,
        bar: Bar::Stay {
            cell: v,
            first: e,
            last: e + slips[i] as usize,
        },
    };
    Bars { one, two }
}

// 'For a swap each is barred from its own crossing at t.'
fn cross_bars(i: usize, j: usize, u: usize, v: usize, t: usize) -> Bars
    ensures { result ≡ cross_bars i j u v t }
{
    let one = Barred {
        carrier: i,
        bar: Bar::Cross {
            from: u,
            to: v,
            step: t,
        },
    };
    let two = Barred {
        carrier: j,
        bar: Bar::Cross {
            from: v,
            to: u,
            step: t,
        },
    };
    Bars { one, two }
}

// A node by its clash: clear, or parted.
fn split(
    task: Task,
    node: usize,
    clash: Clash,
    made: usize,
    columns: &mut [u16],
    plans: &mut [u8],
    layers: &mut [u8],
) -> Turn
    requires ready { Ready task layers.old }
    requires sound { Sound (job_on task) task.capacity columns.old plans.old made }
    requires in_range { node < made }
    requires clash_found { clash ≡ clash_of (job_on task) (node_at (job_on task) task.capacity columns.old plans.old node) }
    ensures kept { Kept task.entry columns.old plans.old layers.old columns.new plans.new layers.new }
    ensures parted { SplitFact (job_on task.entry) task.entry.capacity node made columns.old plans.old columns.new plans.new result }
{
    match clash {
        Clash::Clear => Turn::Clear { node },
        Clash::Meeting {
            first,
            second,
            step,
            distance: _,
        } => {
            let v = cell_of(task, node, first, step, plans);
            let bars = stay_bars(task.job.team.slips, first, second, v, step);
            part(task, node, bars, made, columns, plans, layers)
        }
        Clash::Swap {
            first,
            second,
            step,
        } => {
            let u = cell_of(task, node, first, step, plans);
            let v = cell_of(task, node, second, step, plans);
            let bars = cross_bars(first, second, u, v, step);
            part(task, node, bars, made, columns, plans, layers)
        }
    }
}

// Rule 5: the chosen meeting or swap of a node.
fn clash_at(task: Task, node: usize, plans: &[u8]) -> Clash
    requires { Placed task plans.now node }
    ensures { result ≡ first_clash (stretch_at (job_on task.entry) plans.now node) task.entry.job.team task.entry.job.horizon }
{
    let size = children::stretch_of(task);
    let from = node * size;
    let to = from + size;
    clashes::first_clash(&plans[from..to], task.job.team, task.job.horizon)
}

// Rule 4: 'Take the open node of least sum, then of least number. If no open node is left, answer 8. If its routes have no
// meeting and no swap, they are the plan.'
fn take_turn(
    task: Task,
    made: usize,
    columns: &mut [u16],
    plans: &mut [u8],
    layers: &mut [u8],
) -> Turn
    requires ready { Ready task layers.old }
    requires sound { Sound (job_on task) task.capacity columns.old plans.old made }
    ensures kept { Kept task.entry columns.old plans.old layers.old columns.new plans.new layers.new }
    ensures went { TurnFact (job_on task.entry) task.entry.capacity made columns.old plans.old columns.new plans.new result }
{
    let Some(node) = tables::least_open(columns, task.capacity, made) else {
        return Turn::Spent;
    };
    let clash = clash_at(task, node, plans);
    split(task, node, clash, made, columns, plans, layers)
}

// Turn after turn, until one ends the search.
fn search_all(task: Task, columns: &mut [u16], plans: &mut [u8], layers: &mut [u8]) -> End
    requires ready { Ready task layers.old }
    requires sound { Sound (job_on task) task.capacity columns.old plans.old 1 }
    ensures kept { Kept task.entry columns.old plans.old layers.old columns.new plans.new layers.new }
    ensures ended { EndFact (job_on task.entry) task.entry.capacity (tree_from (job_on task.entry) task.entry.capacity columns.old plans.old 1) columns.new plans.new result }
{
    let mut made = 1;
    loop {
        let next = take_turn(task, made, columns, plans, layers);
        match next {
            Turn::Spent => return End::Spent { made },
            Turn::Clear { node } => return End::Clear { node, made },
            Turn::Full => return End::Full,
            Turn::On { made: more } => made = more,
        }
    }
}

// The search from its root to its end.
fn grow(task: Task, columns: &mut [u16], plans: &mut [u8], layers: &mut [u8]) -> End
    requires ready { Ready task layers.old }
    requires room { (8 * task.capacity ≤ length columns.old) × (task.capacity * plan_length (job_on task) ≤ length plans.old) }
    ensures kept { Kept task.entry columns.old plans.old layers.old columns.new plans.new layers.new }
    ensures ended { EndFact (job_on task.entry) task.entry.capacity (tree (job_on task.entry) task.entry.capacity) columns.new plans.new result }
{
    if !children::make_root(task, columns, plans, layers) {
        return End::Spent { made: 0 };
    }
    search_all(task, columns, plans, layers)
}

// The answer of an end, and for a plan the output: 'carrier by carrier, its cells for steps 0 to H'.
fn tell(task: Task, end: End, plans: &[u8], output: &mut [u8]) -> Result<Plan, Denial>
    requires placed { EndPlaced task plans.now end }
    requires room { plan_length (job_on task) ≤ length output.old }
    ensures { ToldFact task.entry plans.now output.old output.new end result }
{
    match end {
        End::Spent { made } => Err(Denial::NoPlan { records: made }),
        End::Full => Err(Denial::Full {
            records: task.capacity,
        }),
        End::Clear { node, made } => {
            let size = children::stretch_of(task);
            lent::copy_out(plans, node * size, size, output);
            let sum = children::sum_at(task, node, plans);
            Ok(Plan { sum, records: made })
        }
    }
}

// The length of the layers. Document 02, P2: 'The layers table needs twice its length', which was (H + 1) × width × height.
fn layers_of(task: Task) -> usize
    requires { Limits task }
    ensures { result ≡ layers_length (job_on task.entry) }
{
    2 * ((task.job.horizon + 1) * (task.job.width * task.job.height))
}

// 'After 0, 8 and 9 the named least lengths of the first three tables are all zero and the rest unchanged.'
fn clear_all(task: Task, columns: &mut [u16], plans: &mut [u8], layers: &mut [u8])
    requires limits { Limits task }
    requires room { (columns_length task.capacity ≤ length columns.old) × (plans_length (job_on task) task.capacity ≤ length plans.old) × (layers_length (job_on task) ≤ length layers.old) }
    ensures { Cleared task.entry columns.old plans.old layers.old columns.new plans.new layers.new }
{
    let capacity = task.capacity;
    lent::clear(columns, tables::COLUMNS * capacity, 0);
    lent::clear(plans, capacity * children::stretch_of(task), 0);
    lent::clear(layers, layers_of(task), 0);
}

// The search, what is told of its end, and the tables cleared.
fn run(
    task: Task,
    columns: &mut [u16],
    plans: &mut [u8],
    layers: &mut [u8],
    output: &mut [u8],
) -> Result<Plan, Denial>
    requires ready { Ready task layers.old }
    requires roomy { Roomy task columns.old plans.old layers.old output.old }
    ensures { RanFact (job_on task.entry) task.entry.capacity (record { columns = columns.old; plans = plans.old; layers = layers.old; output = output.old }) result (record { columns = columns.new; plans = plans.new; layers = layers.new; output = output.new }) }
{
    let end = grow(task, columns, plans, layers);
    let answer = tell(task, end, plans, output);
    clear_all(task, columns, plans, layers);
    answer
}

// Is a lent table long enough?
fn enough(table: usize, length: usize, needed: usize) -> Result<(), Denial>
    ensures ok { OnOk result (needed ≤ length) }
    ensures short { OnErr result ((length < needed) × (result ≡ Err (Short table needed))) }
{
    if length < needed {
        return Err(Denial::Short { table, needed });
    }
    Ok(())
}

// Answer 7: 'the first short table, in document 01's order' (0 columns, 1 plans, 2 layers, 3 output) 'and the length it needed'.
fn first_short(
    task: Task,
    columns: &[u16],
    plans: &[u8],
    layers: &[u8],
    output: &[u8],
) -> Result<(), Denial>
    requires { Limits task }
    ensures { result ≡ lengths_of (needed_length (job_on task.entry) task.entry.capacity) (first_short (job_on task.entry) task.entry.capacity (record { columns = columns.now; plans = plans.now; layers = layers.now; output = output.now })) }
{
    let size = children::stretch_of(task);
    enough(0, columns.len(), tables::COLUMNS * task.capacity)?;
    enough(1, plans.len(), task.capacity * size)?;
    enough(2, layers.len(), layers_of(task))?;
    enough(3, output.len(), size)
}

// Any job and any lent tables: a plan or a numbered refusal.
pub fn plan(
    job: LentJob,
    n: usize,
    columns: &mut [u16],
    plans: &mut [u8],
    layers: &mut [u8],
    output: &mut [u8],
) -> Result<Plan, Denial>
    ensures { Planned (lent_job job.entry) n (record { columns = columns.old; plans = plans.old; layers = layers.old; output = output.old }) result (record { columns = columns.new; plans = plans.new; layers = layers.new; output = output.new }) }
{
    job::judge_job(job, job::wrong_capacity(n))?;
    let task = Task { job, capacity: n };
    first_short(task, columns, plans, layers, output)?;
    run(task, columns, plans, layers, output)
}
