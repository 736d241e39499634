// The lines that the program prints for an answer (document 01, 'The book of a job'), written on a page.
#![tactic(auto)]

ghost use Rattle.std.specs.Prelude.{◌+◌, ◌*◌, ◌≤◌, ◌≡◌, ◌++◌, length, get_or, take};
ghost use Rattle.job.specs.Team.{lent_job};
ghost use Rattle.book.specs.Book.{body_of};
ghost use Rattle.book.specs.Parts.{hall_in, horizon_in};
ghost use Rattle.planner.specs.Answer.{planned, answer_told};
ghost use Rattle.text.specs.Text.{page, put, digits};
ghost use Rattle.text.specs.Lent.{Writes};
ghost use Rattle.lines.specs.Lines.{answer_word, space, number_line, pair_line, cells_text, cost_line, carrier_line, carrier_lines, holds_no_plan, carriers_text, plan_text, short_text, rest_text, told_text};
ghost use Rattle.lines.specs.Output.{carriers_in};
ghost use Rattle.lines.specs.Printed.{team_in, job_in, result_text, book_text, book_tables, Printed};
ghost use Rattle.lines.specs.Program.{ProgramPrinted};

use job::{LentJob, Team, Told};
use planner::{Denial, Plan};
use text::Page;

// Where the hall bytes begin in a book's first body.
const HALL_AT: usize = 2;

// 'uses N = 128'
const CAPACITY: usize = 128;

// The program's tables, long enough for every job with that N: 8 columns of N records;
const COLUMNS: usize = 1024;

// N plans of 8 carriers and 64 steps;
const PLANS: usize = 65536;

// twice 64 layers of 256 cells;
const LAYERS: usize = 32768;

// one plan.
const OUTPUT: usize = 512;

// The program's page. No text has more than 2,296 bytes: the longest are those of 8 carriers with 64 cells of three digits each.
pub const PAGE: usize = 4096;

// A word, a number and the end of the line.
#[tactic(auto, using(text::proofs::TextLaws::put_append), unfolding(crate::specs::Lines::number_line))]
fn put_line(page: &mut Page, word: &[u8], n: usize)
    ensures { Writes page.old page.new (number_line word.now n) }
{
    page.word(word);
    page.number(n);
    page.byte(b'\n');
}

#[tactic(auto, using(text::proofs::TextLaws::put_append), unfolding(crate::specs::Lines::pair_line, text::specs::Text::put))]
fn put_pair(page: &mut Page, i: usize, j: usize)
    ensures { Writes page.old page.new (pair_line i j) }
{
    page.word(b"carriers ");
    page.number(i);
    page.byte(b' ');
    page.number(j);
    page.byte(b'\n');
}

#[tactic(auto, unfolding(text::specs::Text::put))]
fn put_cell(page: &mut Page, cell: u8)
    ensures { Writes page.old page.new (space ++ digits cell) }
{
    page.byte(b' ');
    page.number(usize::from(cell));
}

#[tactic(auto, using(text::proofs::TextLaws::put_append, text::proofs::TextLaws::put_none, crate::proofs::LinesLaws::cells_snoc, crate::proofs::LinesLaws::cells_nil, std::proofs::lemmas::Grind::common_steps))]
fn put_cells(page: &mut Page, cells: &[u8])
    ensures { Writes page.old page.new (cells_text cells.now) }
{
    for &cell in cells {
        put_cell(page, cell);
    }
}

// 'cells from step 0 to its cost'
fn to_cost(route: &[u8], cost: usize) -> &[u8]
    ensures { result.now ≡ take (cost + 1) route.now }
{
    route.get(..=cost).unwrap_or(route)
}

#[tactic(auto, using(text::proofs::TextLaws::put_append), unfolding(crate::specs::Lines::cost_line, text::specs::Text::put))]
fn put_cost(page: &mut Page, i: usize, cost: usize, route: &[u8])
    ensures { Writes page.old page.new (cost_line i cost route.now) }
{
    page.word(b"carrier ");
    page.number(i);
    page.word(b" cost ");
    page.number(cost);
    page.word(b" cells");
    put_cells(page, to_cost(route, cost));
    page.byte(b'\n');
}

#[tactic(auto, unfolding(crate::specs::Lines::carrier_line))]
fn put_carrier(page: &mut Page, i: usize, goal: u8, route: &[u8])
    ensures { Writes page.old page.new (carrier_line i goal route.now) }
{
    let cost = tables::route_cost(route, goal);
    put_cost(page, i, cost, route);
}

// The planner's output, and by which carriers and H a plan would stand there.
#[derive(Clone, Copy)]
struct PlanOutput<'a> {
    team: Team,
    h: usize,
    cells: &'a [u8],
}

impl PlanOutput<'_> {
    #[tactic(auto, unfolding(crate::specs::Lines::holds_no_plan))]
    fn holds_no_plan(self) -> bool
        ensures { result ≡ holds_no_plan self.entry.team self.entry.h self.entry.cells.now }
    {
        job::MOST_CARRIERS < self.team.count
            || job::MOST_HORIZON < self.h
            || self.cells.len() < self.team.count * (self.h + 1)
    }

    #[tactic(auto, using(text::proofs::TextLaws::put_append, text::proofs::TextLaws::put_none, crate::proofs::LinesLaws::carriers_nil, crate::proofs::LinesLaws::carriers_next, std::proofs::lemmas::Grind::common_steps))]
    fn put_carriers(self, page: &mut Page)
        requires { (self.team.count ≤ 8) × (self.h ≤ 63) × (self.team.count * (self.h + 1) ≤ length self.cells.now) }
        ensures { Writes page.old page.new (carrier_lines self.entry.team self.entry.h self.entry.cells.now self.entry.team.count) }
    {
        let size = self.h + 1;
        for (i, &goal) in self.team.goals[..self.team.count].iter().enumerate() {
            let route = &self.cells[i * size..][..size];
            put_carrier(page, i, goal, route);
        }
    }

    // No plan is read where none can stand.
    #[tactic(auto, using(text::proofs::TextLaws::put_none), unfolding(crate::specs::Lines::carriers_text, crate::specs::Lines::holds_no_plan))]
    fn put_team(self, page: &mut Page)
        ensures { Writes page.old page.new (carriers_in self.entry) }
    {
        if !self.holds_no_plan() {
            self.put_carriers(page);
        }
    }
}

// 'For 0, then `sum`, `records`, and for each carrier its number, cost and cells'
#[tactic(auto, using(text::proofs::TextLaws::put_append), unfolding(crate::specs::Lines::plan_text))]
fn put_plan(page: &mut Page, told: Told, plan: PlanOutput)
    ensures { Writes page.old page.new (plan_text told (carriers_in plan.entry)) }
{
    put_line(page, b"sum ", told.sum);
    put_line(page, b"records ", told.records);
    plan.put_team(page);
}

// The first short table, and the length it needed.
#[tactic(auto, using(text::proofs::TextLaws::put_append), unfolding(crate::specs::Lines::short_text))]
fn put_short(page: &mut Page, told: Told)
    ensures { Writes page.old page.new (short_text told) }
{
    put_line(page, b"table ", told.table);
    put_line(page, b"needed ", told.needed);
}

// What follows the first line, by the number that C is told too: `told_lines` promises the lines of any Told.
#[tactic(auto, using(text::proofs::TextLaws::put_none), unfolding(crate::specs::Lines::rest_text))]
fn put_rest(page: &mut Page, told: Told, plan: PlanOutput)
    ensures { Writes page.old page.new (rest_text told (carriers_in plan.entry)) }
{
    match told.number {
        0 => put_plan(page, told, plan),
        5 => put_line(page, b"carrier ", told.carrier),
        6 | 16 => put_pair(page, told.carrier, told.other),
        7 => put_short(page, told),
        8 | 9 => put_line(page, b"records ", told.records),
        _ => {}
    }
}

// The lines of what is given back for a job; the carriers' routes are read in the output.
#[tactic(auto, using(text::proofs::TextLaws::put_append), unfolding(crate::specs::Lines::told_text))]
pub fn told_lines(told: Told, team: Team, h: usize, output: &[u8], out: &mut [u8]) -> usize
    ensures { page out.new result ≡ put (page out.old 0) (told_text told (carriers_text team h output.now)) }
{
    let mut page = Page::new(out, 0);
    put_line(&mut page, b"answer ", told.number);
    let plan = PlanOutput {
        team,
        h,
        cells: output,
    };
    put_rest(&mut page, told, plan);
    page.end()
}

// The lines of the planner's answer.
pub fn answer_lines(
    answer: Result<Plan, Denial>,
    team: Team,
    h: usize,
    output: &[u8],
    out: &mut [u8],
) -> usize
    ensures { page out.new result ≡ put (page out.old 0) (told_text (answer_told answer) (carriers_text team h output.now)) }
{
    told_lines(told::answer_told(answer), team, h, output, out)
}

// The line of a refused book.
pub fn refusal_lines(number: usize, out: &mut [u8]) -> usize
    ensures { page out.new result ≡ put (page out.old 0) (number_line answer_word number) }
{
    let mut page = Page::new(out, 0);
    put_line(&mut page, b"answer ", number);
    page.end()
}

// A byte of a body, 0 past its end.
fn number_at(body: &[u8], at: usize) -> usize
    ensures { result ≡ get_or body.now at 0 }
{
    body.get(at).copied().unwrap_or(0).into()
}

// 'Kind 1: width, height, hall bytes.'
#[tactic(auto, unfolding(book::specs::Parts::hall_in))]
fn hall_in(body: &[u8]) -> &[u8]
    ensures { result.now ≡ hall_in body.now }
{
    body.get(HALL_AT..).unwrap_or(&[])
}

// The job that a book holds.
#[tactic(auto, unfolding(book::specs::Parts::width_in, book::specs::Parts::height_in, book::specs::Parts::horizon_in))]
fn job_in(book: &[u8]) -> LentJob<'_>
    ensures job { lent_job result ≡ job_in book.now }
    ensures team { result.team ≡ team_in book.now }
    ensures horizon { result.horizon ≡ horizon_in (body_of book.now 3) }
{
    let hall = book::body(book, book::HALL);
    let limits = book::body(book, book::LIMITS);
    LentJob {
        hall: hall_in(hall),
        width: number_at(hall, 0),
        height: number_at(hall, 1),
        team: carriers::team_of_bytes(book::body(book, book::CARRIERS)),
        horizon: number_at(limits, 0),
    }
}

// A book and the planner's tables in, the lines out: how many bytes of `out` they take.
pub fn book_lines(
    book: &[u8],
    n: usize,
    columns: &mut [u16],
    plans: &mut [u8],
    layers: &mut [u8],
    output: &mut [u8],
    out: &mut [u8],
) -> usize
    ensures { Printed (book_text book.now n (record { columns = columns.old; plans = plans.old; layers = layers.old; output = output.old })) (book_tables book.now n (record { columns = columns.old; plans = plans.old; layers = layers.old; output = output.old })) out.old result (record { columns = columns.new; plans = plans.new; layers = layers.new; output = output.new }) out.new }
{
    if let Err(refusal) = book::judge_book(book) {
        return refusal_lines(book::book_number(Err(refusal)), out);
    }
    let job = job_in(book);
    let answer = planner::plan(job, n, columns, plans, layers, output);
    answer_lines(answer, job.team, job.horizon, output, out)
}

// The program: a book in, its lines on the page, with tables of its own that suffice for every job.
pub fn program_lines(book: &[u8], out: &mut [u8; PAGE]) -> usize
    ensures { ProgramPrinted book.now out.old result out.new }
{
    let mut columns = [0u16; COLUMNS];
    let mut plans = [0u8; PLANS];
    let mut layers = [0u8; LAYERS];
    let mut output = [0u8; OUTPUT];
    book_lines(
        book,
        CAPACITY,
        &mut columns,
        &mut plans,
        &mut layers,
        &mut output,
        out,
    )
}
