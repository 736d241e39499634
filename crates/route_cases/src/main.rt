// The engine's best routes under random bars (rule 2, as document 02, P2, has it) against an enumeration of all ways, which shares no code
// with the engine: halls of up to 3 by 3 cells, horizons of up to 5 steps, and up to 6 records below the root, of which some bind another
// carrier and some are no ancestors of the node. Most bars lie on the best route that those before them leave; how many of the answers
// they change is counted, and how many would be others by document 01's rule, which has no word of moves.
#![tactic(auto)]

ghost use Rattle.std.specs.Prelude.{◌+◌, ◌≤◌, ◌<◌, ◌≡◌, true};

use std::io;

const ROUNDS: usize = 600;

const SEED: u64 = 20180710;

const OPEN: u8 = 46;

const CLOSED: u8 = 35;

const CELLS: usize = 9;

const LAST_STEP: u8 = 5;

// From step 0 to the last.
const STEPS: usize = 6;

const CAPACITY: usize = 8;

const COLUMN_COUNT: usize = 8;

// The bars that are another carrier's.
const OTHER_CARRIER: u8 = 2;

// No bar binds this carrier.
const FREE_CARRIER: u8 = 9;

// What the engine answers where there is no route.
const NO_ROUTE: usize = 255;

// A cell that no hall has: a bar's, on a move off the grid.
const NOWHERE: u8 = 99;

// A cell for each step up to the horizon, and 0 behind it.
type Route = [u8; STEPS];

// Open and closed cells, those of the case first.
type Hall = [u8; CELLS];

// From where to where, on which grid and by which step.
#[derive(Clone, Copy)]
struct Trip {
    width: u8,
    height: u8,
    size: u8,
    start: u8,
    goal: u8,
    horizon: u8,
    ghost in_range: { (1 ≤ width) × (width ≤ 3) × (1 ≤ size) × (size ≤ 9) × (start < size) × (horizon ≤ 5) },
}

#[derive(Clone, Copy)]
struct Case {
    trip: Trip,
    node: u8,
    carrier: u8,
}

// With the numbers that the engine's records have for them.
#[derive(Clone, Copy, PartialEq, Eq)]
enum Kind {
    None = 0,
    Stay = 1,
    Crossing = 2,
}

// What is kept of a node: the three numbers make a bar of its kind. Where it is no bar it has numbers too, which the engine has to pass
// over, so they are no fields of the kinds.
#[derive(Clone, Copy)]
struct Record {
    parent: u8,
    carrier: u8,
    kind: Kind,
    numbers: [u8; 3],
}

// By which rule ways are enumerated: whether bars on crossings bind, and whether moves count.
#[derive(Clone, Copy)]
struct Rule {
    crossings: bool,
    moves: bool,
}

const RULE: Rule = Rule {
    crossings: true,
    moves: true,
};

const STAYS_ALONE: Rule = Rule {
    crossings: false,
    moves: true,
};

// Document 01's.
const COST_ALONE: Rule = Rule {
    crossings: true,
    moves: false,
};

// What is found: a way of least cost, then of least moves where they count.
#[derive(Clone, Copy, PartialEq, Eq)]
struct Way {
    cost: usize,
    moves: usize,
    route: Route,
}

// What is told of it. The route is all 0 where there is none.
#[derive(Clone, Copy, PartialEq, Eq)]
struct Told {
    cost: Option<usize>,
    route: Route,
}

impl From<Option<Way>> for Told {
    fn from(best: Option<Way>) -> Told {
        Told {
            cost: best.map(|way| way.cost),
            route: best.map_or([0; STEPS], |way| way.route),
        }
    }
}

// ---- random cases

// A linear congruential generator modulo 2 ^ 31.
#[derive(Clone, Copy)]
struct Random {
    seed: u64,
}

impl Random {
    fn skip(&mut self) {
        self.seed = (self.seed % 2147483648 * 1103515245 + 12345) % 2147483648;
    }

    // A number below n, of the next seed's high digits.
    fn draw(&mut self, n: u8) -> u8
        requires { 0 < n }
        ensures { result < n }
    {
        self.skip();
        (self.seed / 65536 % u64::from(n)) as u8
    }
}

// The horizon is 0 to 5, mostly 5, and the node 0 to 6, where 0 is half as likely as any other.
fn draw_case(random: &mut Random) -> Case {
    let width = random.draw(3) + 1;
    let height = random.draw(3) + 1;
    let size = width * height;
    let start = random.draw(size);
    let goal = random.draw(size);
    let horizon = random.draw(11).min(LAST_STEP);
    let node = (random.draw(13) + 1) / 2;
    let carrier = random.draw(2);
    let trip = Trip {
        width,
        height,
        size,
        start,
        goal,
        horizon,
    };
    Case {
        trip,
        node,
        carrier,
    }
}

fn draw_hall(random: &mut Random) -> Hall {
    let mut hall = [OPEN; CELLS];
    for cell in &mut hall {
        if random.draw(9) == 0 {
            *cell = CLOSED;
        }
    }
    hall
}

// ---- the enumeration

// How many ways there are of so many moves, five at most.
fn ways(moves: u8) -> usize
    ensures { (0 < result) × (result ≤ 3125) }
{
    match moves {
        0 => 1,
        1 => 5,
        2 => 25,
        3 => 125,
        4 => 625,
        _ => 3125,
    }
}

impl Trip {
    // The cell that a move leads to, if it is on the grid; moves rise with the cells that they lead to.
    fn gone(self, cell: u8, turn: u8) -> Option<u8>
        requires { cell < self.size }
    {
        // No hall is wider than 3. Constants divide here: with the width it took a tenth more time, built by Rattle's own compiler twice as much.
        let column = || match self.width {
            1 => 0,
            2 => cell % 2,
            _ => cell % 3,
        };
        match turn {
            0 => cell.checked_sub(self.width),
            1 => if column() == 0 { None } else { Some(cell - 1) },
            2 => Some(cell),
            3 => if column() + 1 == self.width {
                None
            } else {
                Some(cell + 1)
            },
            _ => Some(cell + self.width).filter(|below| *below < self.size),
        }
    }

    fn is_open(self, hall: &Hall, cell: u8) -> bool
        ensures { result ≡ true → cell < self.size }
    {
        cell < self.size && hall[usize::from(cell)] == OPEN
    }

    // The way of a number, its first move in the highest digit to the base 5, unless it leaves the grid or enters a closed cell.
    fn walk(self, hall: &Hall, code: usize) -> Option<Route> {
        if !self.is_open(hall, self.start) {
            return None;
        }
        let mut route = [0; STEPS];
        let mut cell = self.start;
        route[0] = cell;
        // The digits left, the next always the fifth, had by a constant: a power at each step, and a division by it, took half more time.
        let mut left = code % 3125 * ways(LAST_STEP - self.horizon);
        for t in 0..self.horizon {
            let turn = left / 625 % 5;
            left = left % 625 * 5;
            cell = self.gone(cell, turn as u8)?;
            if !self.is_open(hall, cell) {
                return None;
            }
            route[usize::from(t) + 1] = cell;
        }
        Some(route)
    }
}

impl Record {
    const NONE: Record = Record {
        parent: 0,
        carrier: 0,
        kind: Kind::None,
        numbers: [0; 3],
    };

    // 'may not be on a cell from step a to step b'; 'may not go from one cell to another between t and t + 1'
    fn allows(self, steps: &[u8]) -> bool {
        let [one, two, three] = self.numbers;
        match self.kind {
            Kind::None => true,
            Kind::Stay => !steps.iter().enumerate().any(|(t, cell)| usize::from(two) <= t
                && t <= usize::from(three)
                && *cell == one),
            Kind::Crossing => !steps.windows(2).enumerate().any(|(t, pair)| t == usize::from(three)
                && pair[0] == one
                && pair[1] == two),
        }
    }

    fn obeyed(self, case: Case, rule: Rule, steps: &[u8]) -> bool {
        let binds = self.carrier == case.carrier && (rule.crossings || self.kind != Kind::Crossing);
        !binds || self.allows(steps)
    }
}

// The records of the node and its ancestors; the root is its own parent.
fn obeys(records: &[Record; CAPACITY], case: Case, rule: Rule, steps: &[u8]) -> bool {
    let mut node = case.node;
    for _ in 0..CAPACITY {
        let Some(record) = records.get(usize::from(node)) else {
            return true;
        };
        if !record.obeyed(case, rule, steps) {
            return false;
        }
        node = record.parent;
    }
    true
}

// The way of a number, if it is a route that obeys its bars: its cost is the step after the last that is not on the goal.
fn judged(
    hall: &Hall,
    records: &[Record; CAPACITY],
    case: Case,
    rule: Rule,
    code: usize,
) -> Option<Way> {
    let goal = case.trip.goal;
    let route = case.trip.walk(hall, code)?;
    let end = usize::from(case.trip.horizon);
    let steps = &route[..=end];
    if steps[end] != goal || !obeys(records, case, rule, steps) {
        return None;
    }
    let cost = steps
        .iter()
        .rposition(|cell| *cell != goal)
        .map_or(0, |t| t + 1);
    let moves = steps.windows(2).filter(|pair| pair[0] != pair[1]).count();
    Some(Way {
        cost,
        moves: if rule.moves { moves } else { 0 },
        route,
    })
}

// The first way of least cost and moves, all taken in dictionary order.
fn enumerated(hall: &Hall, records: &[Record; CAPACITY], case: Case, rule: Rule) -> Option<Way> {
    (0..ways(case.trip.horizon))
        .filter_map(|code| judged(hall, records, case, rule, code))
        .min_by_key(|way| (way.cost, way.moves))
}

// ---- random records

// A parent of a smaller number, mostly the next smaller.
fn draw_parent(mut random: Random, node: u8) -> u8
    ensures { result ≤ node }
{
    if node == 0 {
        return 0;
    }
    if random.draw(4) == 0 {
        return random.draw(node);
    }
    node - 1
}

// Three numbers that make a bar of a kind, anywhere.
fn draw_bar(trip: Trip, kind: Kind, random: &mut Random) -> [u8; 3] {
    let cell = random.draw(trip.size);
    let step = random.draw(LAST_STEP);
    if kind == Kind::Crossing {
        let to = trip.gone(cell, random.draw(5)).unwrap_or(NOWHERE);
        return [cell, to, step];
    }
    [cell, step, step + random.draw(3)]
}

// Three that make one on a route: of a step of it, or of a cell up to a step at which the route is there. They use up as many numbers.
fn draw_bar_on(route: &Route, kind: Kind, random: &mut Random) -> [u8; 3] {
    let step = random.draw(LAST_STEP);
    let first = random.draw(step + 1);
    random.skip();
    let at = usize::from(step);
    if kind == Kind::Crossing {
        return [route[at], route[at + 1], step];
    }
    [route[at], first, step]
}

// A bar on the best route that its ancestors leave, if they leave one, and now and then anywhere.
fn draw_bar_for(
    hall: &Hall,
    records: &[Record; CAPACITY],
    case: Case,
    kind: Kind,
    random: &mut Random,
) -> [u8; 3] {
    let anywhere = random.draw(4) == 0;
    match enumerated(hall, records, case, RULE) {
        Some(way) if !anywhere => draw_bar_on(&way.route, kind, random),
        _ => draw_bar(case.trip, kind, random),
    }
}

// The record is no bar until its kind is written. The parent is drawn ahead, by numbers of which its kind is drawn again.
fn draw_record(hall: &Hall, records: &mut [Record; CAPACITY], case: Case, random: &mut Random)
    requires { case.node < 8 }
{
    let parent = draw_parent(*random, case.node);
    random.skip();
    let kind = match random.draw(3) {
        0 => Kind::None,
        1 => Kind::Stay,
        _ => Kind::Crossing,
    };
    let carrier = if random.draw(3) == 0 {
        OTHER_CARRIER
    } else {
        case.carrier
    };
    let record = Record {
        parent,
        carrier,
        ..Record::NONE
    };
    records[usize::from(case.node)] = record;
    let numbers = draw_bar_for(hall, records, case, kind, random);
    records[usize::from(case.node)] = Record {
        kind,
        numbers,
        ..record
    };
}

fn draw_records(hall: &Hall, case: Case, random: &mut Random) -> [Record; CAPACITY] {
    let mut records = [Record::NONE; CAPACITY];
    for node in 0..CAPACITY as u8 {
        draw_record(hall, &mut records, Case { node, ..case }, random);
    }
    records
}

// ---- the comparison

// The columns that the engine reads. It has two more, of sums and open records, which it does not read for a route.
fn columns_of(records: &[Record; CAPACITY]) -> [u16; COLUMN_COUNT * CAPACITY] {
    let mut columns = [0u16; COLUMN_COUNT * CAPACITY];
    for (node, record) in records.iter().enumerate() {
        let [one, two, three] = record.numbers;
        columns[node] = u16::from(record.parent);
        columns[CAPACITY + node] = record.kind as u16;
        columns[2 * CAPACITY + node] = u16::from(record.carrier);
        columns[3 * CAPACITY + node] = u16::from(one);
        columns[4 * CAPACITY + node] = u16::from(two);
        columns[5 * CAPACITY + node] = u16::from(three);
    }
    columns
}

// The engine's answer: 254, for arguments that are not right, would be no cost of any way.
fn engine(hall: &Hall, columns: &[u16], case: Case, carrier: u8, layers: &mut [u8]) -> Told {
    let trip = case.trip;
    let mut route = [0; STEPS];
    let cost = route_bench::adfulmise_best_route(
        &hall[..usize::from(trip.size)],
        usize::from(trip.width),
        usize::from(trip.height),
        usize::from(trip.start),
        usize::from(trip.goal),
        usize::from(trip.horizon),
        columns,
        CAPACITY,
        usize::from(case.node),
        usize::from(carrier),
        layers,
        &mut route[..=usize::from(trip.horizon)],
    );
    Told {
        cost: Some(cost).filter(|cost| *cost != NO_ROUTE),
        route,
    }
}

// What one round shows: whether engine and enumeration differ, whether there is a route, whether the bars change the answer, whether those on
// crossings do, and whether document 01's rule would.
#[derive(Clone, Copy)]
struct Shown {
    differ: bool,
    found: bool,
    barred: bool,
    crossed: bool,
    older: bool,
}

fn compared(hall: &Hall, records: &[Record; CAPACITY], case: Case) -> Shown {
    let columns = columns_of(records);
    let mut layers = [165u8; 108];
    let told = engine(hall, &columns, case, case.carrier, &mut layers);
    let told_free = engine(hall, &columns, case, FREE_CARRIER, &mut layers);
    let best = enumerated(hall, records, case, RULE);
    let best_by_cost = enumerated(hall, records, case, COST_ALONE);
    Shown {
        differ: told != Told::from(best),
        found: best.is_some(),
        barred: told != told_free,
        crossed: best != enumerated(hall, records, case, STAYS_ALONE),
        older: Told::from(best) != Told::from(best_by_cost),
    }
}

// How many of the rounds so far showed it.
#[derive(Clone, Copy, Default)]
struct Seen {
    differ: usize,
    found: usize,
    barred: usize,
    crossed: usize,
    older: usize,
}

impl Seen {
    fn add(&mut self, shown: Shown)
        requires { (self.old.differ ≤ 600) × (self.old.found ≤ 600) × (self.old.barred ≤ 600) × (self.old.crossed ≤ 600) × (self.old.older ≤ 600) }
        ensures { (self.new.differ ≤ self.old.differ + 1) × (self.new.found ≤ self.old.found + 1) × (self.new.barred ≤ self.old.barred + 1) × (self.new.crossed ≤ self.old.crossed + 1) × (self.new.older ≤ self.old.older + 1) }
    {
        self.differ += usize::from(shown.differ);
        self.found += usize::from(shown.found);
        self.barred += usize::from(shown.barred);
        self.crossed += usize::from(shown.crossed);
        self.older += usize::from(shown.older);
    }
}

fn one_round(random: &mut Random) -> Shown {
    let case = draw_case(random);
    let hall = draw_hall(random);
    let records = draw_records(&hall, case, random);
    compared(&hall, &records, case)
}

fn all_rounds() -> Seen {
    let mut random = Random { seed: SEED };
    let mut seen = Seen::default();
    for _ in 0..ROUNDS {
        seen.add(one_round(&mut random));
    }
    seen
}

fn main(rt: HostRuntime) -> io::Result<()> {
    let Seen {
        differ,
        found,
        barred,
        crossed,
        older,
    } = all_rounds();
    println!(rt; "{ROUNDS} routes compared, {differ} differ")?;
    println!(rt; "{found} found, {barred} changed by bars, {crossed} by crossings")?;
    println!(rt; "{older} would be others by document 01's rule")
}
