// The number of each answer, and what is told beside it, as document 01's table and P1 have them.
#![tactic(auto)]

ghost use Rattle.std.specs.Prelude.{◌≡◌};
ghost use Rattle.planner.specs.Answer.{answer_told};
ghost use Rattle.routes.specs.Check.{route_told};
ghost use Rattle.clashes.specs.Check.{clash_told, meeting_told};

use clashes::Clash;
use job::{CheckRefusal, Fault, Told};
use planner::{Denial, Plan};
use routes::Place;

// What the planner gives back. A function, here and below, and no From: of a Result, which is std's, and Told, which is crate job's, no
// other crate may write one.
pub fn answer_told(answer: Result<Plan, Denial>) -> Told
    ensures { result ≡ answer_told answer }
{
    match answer {
        Ok(Plan { sum, records }) => Told {
            sum,
            records,
            ..Told::default()
        },
        Err(Denial::Job(refusal)) => refusal.into(),
        Err(Denial::Short { table, needed }) => Told {
            number: 7,
            table,
            needed,
            ..Told::default()
        },
        Err(Denial::NoPlan { records }) => Told {
            number: 8,
            records,
            ..Told::default()
        },
        Err(Denial::Full { records }) => Told {
            number: 9,
            records,
            ..Told::default()
        },
    }
}

// What the route check gives back.
pub fn route_told(verdict: Result<Option<Place>, CheckRefusal>) -> Fault
    ensures { result ≡ route_told verdict }
{
    match verdict {
        Ok(None) => Fault::default(),
        Ok(Some(Place { carrier, step })) => Fault {
            number: 21,
            carrier,
            step,
            ..Fault::default()
        },
        Err(refusal) => refusal.into(),
    }
}

fn clash_told(clash: Clash) -> Fault
    ensures { result ≡ clash_told clash }
{
    match clash {
        Clash::Clear => Fault::default(),
        Clash::Meeting {
            first,
            second,
            step,
            distance,
        } => Fault {
            number: 22,
            carrier: first,
            other: second,
            step,
            distance,
            ..Fault::default()
        },
        Clash::Swap {
            first,
            second,
            step,
        } => Fault {
            number: 22,
            carrier: first,
            other: second,
            step,
            swap: 1,
            ..Fault::default()
        },
    }
}

// What the meeting check gives back.
pub fn meeting_told(verdict: Result<Clash, CheckRefusal>) -> Fault
    ensures { result ≡ meeting_told verdict }
{
    match verdict {
        Ok(clash) => clash_told(clash),
        Err(refusal) => refusal.into(),
    }
}
