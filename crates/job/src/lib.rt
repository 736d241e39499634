// What a job is and what makes one accepted: answers 1 to 6 of document 01, and 16 of P1.
#![tactic(auto)]

ghost use Rattle.std.specs.Prelude.{◌+◌, ◌-◌, ◌≤◌, ◌<◌, ◌||◌, ◌≡◌, ◌==◌, eqb, ltb, length, find};
ghost use Rattle.std.specs.List.{range_with_len};
ghost use Rattle.hall.specs.Lent.{lent_hall};
ghost use Rattle.job.specs.Job.{wrong_capacity, wrong_carrier, first_wrong, first_shared};
ghost use Rattle.job.specs.Team.{team_in, lent_job};
ghost use Rattle.job.specs.Told.{named, refusal};
ghost use Rattle.job.specs.Verdict.{refusal_told, check_refusal_told, verdict_told, carrier_verdict, judge_with};
ghost use Rattle.job.specs.Found.{end_in, shared_by, PairFound};
ghost use Rattle.job.specs.declared.CheckRefusal.TheVariants.{Job as OfJob};

use hall::{Grid, Hall};

// 'the horizon H (0 to 63) and the capacity N (1 to 1,024 records). There are 1 to 8 carriers.' P3: 'its own slip, 0 to 4'
const MOST_SLIP: usize = 4;

pub const MOST_HORIZON: usize = 63;

pub const MOST_RECORDS: usize = 1024;

pub const MOST_CARRIERS: usize = 8;

// The carriers by value: start, goal and slip of each, and how many there are. Three arrays and not one of records, which is no
// plainer here: two that share are looked for in the starts and in the goals, each lent as a slice. The count stands beside them, since
// a caller may lend more than eight: answer 4.
#[derive(Clone, Copy)]
pub struct Team {
    pub starts: [u8; 8],
    pub goals: [u8; 8],
    pub slips: [u8; 8],
    pub count: usize,
}

// A job as a caller lends it: any bytes and any numbers, none judged yet.
#[derive(Clone, Copy)]
pub struct LentJob<'a> {
    pub hall: &'a [u8],
    pub width: usize,
    pub height: usize,
    pub team: Team,
    pub horizon: usize,
}

// What refuses a job, in the order of the checks 1 to 6 and 16.
#[derive(Clone, Copy, PartialEq, Eq)]
pub enum Refusal {
    WrongGrid,
    WrongBytes,
    WrongLimits,
    WrongCount,
    WrongCarrier { carrier: usize },
    SharedStart { carrier: usize, other: usize },
    SharedGoal { carrier: usize, other: usize },
}

// What a plan check refuses with before it looks at the plan: the job's refusal, or the length that the plan needed.
#[derive(Clone, Copy, PartialEq, Eq)]
pub enum CheckRefusal {
    Job(Refusal),
    Short { needed: usize },
}

impl From<Refusal> for CheckRefusal {
    ghost from_gives = { λ r e. e ≡ OfJob r };

    fn from(refusal: Refusal) -> CheckRefusal {
        CheckRefusal::Job(refusal)
    }
}

// What is given back: the number and what is told beside it. 'Untold numbers are 0.' Numbers, since C is given them so.
#[derive(Clone, Copy, Default)]
pub struct Told {
    pub number: usize,
    pub sum: usize,
    pub records: usize,
    pub carrier: usize,
    pub other: usize,
    pub table: usize,
    pub needed: usize,
}

// What the two plan checks give back: a number, one carrier or two, a step, a distance, 1 for a swap, and the length that the plan
// needed. Numbers here too for C.
#[derive(Clone, Copy, Default)]
pub struct Fault {
    pub number: usize,
    pub carrier: usize,
    pub other: usize,
    pub step: usize,
    pub distance: usize,
    pub swap: usize,
    pub needed: usize,
}

// A number with nothing told, or with a carrier or two.
fn named(number: usize, carrier: usize, other: usize) -> Told
    ensures { result ≡ named number carrier other }
{
    Told {
        number,
        carrier,
        other,
        ..Told::default()
    }
}

// The number of a refusal, and what it tells.
impl From<Refusal> for Told {
    ghost from_gives = { λ r t. t ≡ refusal_told r };

    fn from(refusal: Refusal) -> Told {
        match refusal {
            Refusal::WrongGrid => named(1, 0, 0),
            Refusal::WrongBytes => named(2, 0, 0),
            Refusal::WrongLimits => named(3, 0, 0),
            Refusal::WrongCount => named(4, 0, 0),
            Refusal::WrongCarrier { carrier } => named(5, carrier, 0),
            Refusal::SharedStart { carrier, other } => named(6, carrier, other),
            Refusal::SharedGoal { carrier, other } => named(16, carrier, other),
        }
    }
}

// The number of a verdict, and what it tells: promised by this name, of an accepted job too, so a function and no From.
pub fn verdict_told(verdict: Result<(), Refusal>) -> Told
    ensures { result ≡ verdict_told verdict }
{
    match verdict {
        Ok(()) => named(0, 0, 0),
        Err(refusal) => refusal.into(),
    }
}

// What is told of a refused job, as a check gives it back.
impl From<Told> for Fault {
    ghost from_gives = { λ t f. f ≡ refusal t };

    fn from(told: Told) -> Fault {
        Fault {
            number: told.number,
            carrier: told.carrier,
            other: told.other,
            ..Fault::default()
        }
    }
}

// The number of a check's refusal, and what it tells.
impl From<CheckRefusal> for Fault {
    ghost from_gives = { λ e f. f ≡ check_refusal_told e };

    fn from(refusal: CheckRefusal) -> Fault {
        match refusal {
            CheckRefusal::Job(refused) => Told::from(refused).into(),
            CheckRefusal::Short { needed } => Fault {
                number: 7,
                needed,
                ..Fault::default()
            },
        }
    }
}

// Answer 3, of N: 'N is 0 or above 1,024'.
#[tactic(auto, unfolding(crate::specs::Job::wrong_capacity))]
pub fn wrong_capacity(n: usize) -> bool
    ensures { result ≡ wrong_capacity n }
{
    n == 0 || MOST_RECORDS < n
}

// Answer 3, of H: 'H above 63'.
fn wrong_limits(h: usize) -> bool
    ensures { result ≡ ltb 63 h }
{
    MOST_HORIZON < h
}

// Answer 4: 'no carrier, or more than 8'.
fn wrong_count(count: usize) -> bool
    ensures { result ≡ (eqb count 0 || ltb 8 count) }
{
    count == 0 || MOST_CARRIERS < count
}

// Answer 5, of one carrier: 'a start or goal is outside the grid or closed', or 'a slip above 4'.
#[tactic(auto, unfolding(crate::specs::Job::wrong_carrier))]
fn wrong_carrier(hall: Hall, team: Team, i: usize) -> bool
    requires { i < 8 }
    ensures { result ≡ wrong_carrier (team_in (lent_hall hall.entry) team) i }
{
    let closed = |cell: u8| !hall.is_open(cell as usize);
    closed(team.starts[i]) || closed(team.goals[i]) || MOST_SLIP < team.slips[i] as usize
}

// The first carrier whose start, goal or slip is wrong.
fn first_wrong(hall: Hall, team: Team) -> Option<usize>
    requires { team.count ≤ 8 }
    ensures { result ≡ find (wrong_carrier (team_in (lent_hall hall.entry) team)) (range_with_len 0 team.count) }
{
    (0..team.count).find(|&i| wrong_carrier(hall, team, i))
}

// The first carrier after i that shares its cell.
fn shared_with(cells: &[u8], i: usize) -> Option<usize>
    requires { i < length cells.now }
    ensures { result ≡ find (λ j. end_in cells.now i == end_in cells.now j) (range_with_len (i + 1) (length cells.now - (i + 1))) }
{
    (i + 1..cells.len()).find(|&j| cells[i] == cells[j])
}

// 'least i, then least j, i < j', asked for the starts and then for the goals.
#[tactic(auto, using(crate::proofs::JobCode::shared_first, crate::proofs::JobCode::shared_next, crate::proofs::JobCode::shared_last))]
fn first_shared(cells: &[u8]) -> Option<(usize, usize)>
    ensures { PairFound result (first_shared (end_in cells.now) (length cells.now)) }
{
    for i in 0..cells.len() {
        if let Some(j) = shared_with(cells, i) {
            return Some((i, j));
        }
    }
    None
}

// Answers 6 and 16.
#[tactic(auto, using(crate::proofs::JobCode::shared_taken), unfolding(crate::specs::Verdict::shared_verdict))]
fn judge_shared(team: Team) -> Result<(), Refusal>
    requires { team.count ≤ 8 }
    ensures { result ≡ shared_by (end_in team.starts) (end_in team.goals) team.count }
{
    if let Some((carrier, other)) = first_shared(&team.starts[..team.count]) {
        return Err(Refusal::SharedStart { carrier, other });
    }
    if let Some((carrier, other)) = first_shared(&team.goals[..team.count]) {
        return Err(Refusal::SharedGoal { carrier, other });
    }
    Ok(())
}

// Answers 5, 6 and 16.
#[tactic(auto, using(crate::proofs::JobCode::first_wrong_found), unfolding(crate::specs::Verdict::carrier_verdict))]
fn judge_carriers(hall: Hall, team: Team) -> Result<(), Refusal>
    requires { team.count ≤ 8 }
    ensures { result ≡ carrier_verdict (first_wrong (team_in (lent_hall hall.entry) team)) (shared_by (end_in team.starts) (end_in team.goals) team.count) }
{
    if let Some(carrier) = first_wrong(hall, team) {
        return Err(Refusal::WrongCarrier { carrier });
    }
    judge_shared(team)
}

// The checks 1 to 6 and 16, 'the lowest number is given', 16 'directly after 6'. The planner's third looks at N too: `wrong_n` is
// what it says of N.
#[tactic(auto, using(crate::proofs::JobCode::carriers_same, std::proofs::lemmas::Bool::Decides::nat_tests), unfolding(lists::specs::Lists::refuse_if, hall::specs::Hall::wrong_grid, crate::specs::Job::wrong_limits, crate::specs::Job::wrong_count, crate::specs::Verdict::judge_with))]
pub fn judge_job(job: LentJob, wrong_n: bool) -> Result<(), Refusal>
    ensures { result ≡ judge_with wrong_n (lent_job job.entry) }
{
    let grid = Grid::new(job.width, job.height).ok_or(Refusal::WrongGrid)?;
    let hall = Hall {
        grid,
        bytes: job.hall,
    };
    if hall.wrong_bytes() {
        return Err(Refusal::WrongBytes);
    }
    if wrong_limits(job.horizon) || wrong_n {
        return Err(Refusal::WrongLimits);
    }
    if wrong_count(job.team.count) {
        return Err(Refusal::WrongCount);
    }
    judge_carriers(hall, job.team)
}
