// The planner, the two plan checks and the book reader for C and Rust: numbers, and slices of numbers and of carrier records.
// Crate adfulmise_c exports them, and `include/adfulmise.h` says the same for C. No function asks anything of its caller.
#![tactic(auto)]

ghost use Rattle.std.specs.Prelude.{◌≡◌};
ghost use Rattle.job.specs.Team.{job_of};
ghost use Rattle.carriers.specs.Lent.{records_team};
ghost use Rattle.routes.specs.Check.{route_verdict, route_told};
ghost use Rattle.clashes.specs.Check.{meeting_verdict, meeting_told};
ghost use Rattle.planner.specs.Answer.{answer_told};
ghost use Rattle.adfulmise.specs.Lent.{written, told_values, fault_values};
ghost use Rattle.adfulmise.specs.Post.{Answered, Checked, Read};

use carriers::Carrier;
use job::{Fault, Told};
use planner::{Denial, Plan};

// The numbers that the planner tells, in the order that the header has for C; so those of a check below.
fn told_values(told: Told) -> [usize; 7]
    ensures { result ≡ told_values told }
{
    [
        told.number,
        told.sum,
        told.records,
        told.carrier,
        told.other,
        told.table,
        told.needed,
    ]
}

// The numbers that a check tells.
fn fault_values(fault: Fault) -> [usize; 7]
    ensures { result ≡ fault_values fault }
{
    [
        fault.number,
        fault.carrier,
        fault.other,
        fault.step,
        fault.distance,
        fault.swap,
        fault.needed,
    ]
}

// The values at the start of the lent list, where there is room for all of them.
#[tactic(auto, unfolding(crate::specs::Lent::written))]
fn write<const N: usize>(values: [usize; N], list: &mut [usize])
    ensures { list.new ≡ written values.entry list.old }
{
    if let Some(front) = list.first_chunk_mut() {
        *front = values;
    }
}

// What an answer tells, and its number.
fn tell_answer(answer: Result<Plan, Denial>, told: &mut [usize]) -> usize
    ensures { (result ≡ (answer_told answer).number) × (told.new ≡ written (told_values (answer_told answer)) told.old) }
{
    let values = told::answer_told(answer);
    write(told_values(values), told);
    values.number
}

// The planner; `told` becomes number, sum, records, carrier, other, table and needed.
pub fn adfulmise_plan(
    hall: &[u8],
    width: usize,
    height: usize,
    carriers: &[Carrier],
    h: usize,
    n: usize,
    columns: &mut [u16],
    plans: &mut [u8],
    layers: &mut [u8],
    output: &mut [u8],
    told: &mut [usize],
) -> usize
    ensures { Answered (job_of width height hall.now (records_team carriers.now) h) n (record { columns = columns.old; plans = plans.old; layers = layers.old; output = output.old }) told.old result (record { columns = columns.new; plans = plans.new; layers = layers.new; output = output.new }) told.new }
{
    let answer = entry::plan(
        hall, width, height, carriers, h, n, columns, plans, layers, output,
    );
    tell_answer(answer, told)
}

// What a check found, and its number.
fn tell_fault(fault: Fault, told: &mut [usize]) -> usize
    ensures { Checked fault told.old result told.new }
{
    write(fault_values(fault), told);
    fault.number
}

// The route check; `told` becomes number, carrier, other, step, distance, 1 for a swap, and needed.
pub fn adfulmise_check_routes(
    hall: &[u8],
    width: usize,
    height: usize,
    carriers: &[Carrier],
    h: usize,
    plan: &[u8],
    told: &mut [usize],
) -> usize
    ensures { Checked (route_told (route_verdict (job_of width height hall.now (records_team carriers.now) h) plan.now)) told.old result told.new }
{
    let verdict = entry::check_routes(hall, width, height, carriers, h, plan);
    tell_fault(told::route_told(verdict), told)
}

// The meeting check, in the same way.
pub fn adfulmise_check_meetings(
    hall: &[u8],
    width: usize,
    height: usize,
    carriers: &[Carrier],
    h: usize,
    plan: &[u8],
    told: &mut [usize],
) -> usize
    ensures { Checked (meeting_told (meeting_verdict (job_of width height hall.now (records_team carriers.now) h) plan.now)) told.old result told.new }
{
    let verdict = entry::check_meetings(hall, width, height, carriers, h, plan);
    tell_fault(told::meeting_told(verdict), told)
}

// The book reader: `place` becomes the offset and the length in the book of the body of that kind, 0 and 0 with a refusal. The book is
// parsed once, for the place and the number.
#[tactic(auto, using(book::proofs::Lengths::asked_length, book::proofs::Verdicts::asked_good, book::proofs::Places::good_place, book::proofs::Places::refused_place, book::proofs::Verdicts::refused_empty))]
pub fn adfulmise_read(book: &[u8], kind: u8, place: &mut [usize]) -> usize
    ensures { Read book.now kind place.old result place.new }
{
    match book::parse_entry(book, kind) {
        Ok(entry) => {
            write([entry.start(), usize::from(entry.length)], place);
            0
        }
        Err(refusal) => {
            write([0, 0], place);
            book::book_number(Err(refusal))
        }
    }
}
