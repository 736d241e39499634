// Plans of document 01's worked jobs and of P3's, and wrong ones, through both checks. For each plan and check one line: the plan's
// name, the check, then number, carrier, other, step, distance, 1 for a swap, and needed. 'Untold numbers are 0.'
#![tactic(auto)]

use job::{Fault, LentJob, Team};
use std::io;

// Carriers from their starts to their goals, of which none slips.
fn lent<'a>(
    hall: &'a [u8],
    width: usize,
    height: usize,
    ends: &[(u8, u8)],
    horizon: usize,
) -> LentJob<'a> {
    let mut team = Team {
        starts: [0; 8],
        goals: [0; 8],
        slips: [0; 8],
        count: ends.len(),
    };
    for (i, (start, goal)) in ends.iter().take(8).enumerate() {
        team.starts[i] = *start;
        team.goals[i] = *goal;
    }
    LentJob {
        hall,
        width,
        height,
        team,
        horizon,
    }
}

// The same on open floors: one row of 3 cells, and 3 by 3.
fn row(ends: &[(u8, u8)], horizon: usize) -> LentJob<'static> {
    lent(b"...", 3, 1, ends, horizon)
}

fn square(ends: &[(u8, u8)], horizon: usize) -> LentJob<'static> {
    lent(b".........", 3, 3, ends, horizon)
}

// The same job, its first three carriers with slips of their own.
fn own(job: LentJob, slips: [u8; 3]) -> LentJob {
    let [one, two, three] = slips;
    let team = Team {
        slips: [one, two, three, 0, 0, 0, 0, 0],
        ..job.team
    };
    LentJob { team, ..job }
}

// Each with this slip; there are never more than three with one.
fn slow(job: LentJob, slip: u8) -> LentJob {
    own(job, [slip; 3])
}

// So many carriers, which stay where they are.
fn many(job: LentJob, count: usize) -> LentJob {
    let cells = [0, 1, 2, 3, 4, 5, 6, 7];
    let team = Team {
        starts: cells,
        goals: cells,
        count,
        ..job.team
    };
    LentJob { team, ..job }
}

fn print_line(rt: &impl Print, name: &str, check: &str, fault: Fault) -> io::Result<()> {
    let Fault {
        number,
        carrier,
        other,
        step,
        distance,
        swap,
        needed,
    } = fault;
    println!(rt; "{name}: {check} {number} {carrier} {other} {step} {distance} {swap} {needed}")
}

// One plan through both checks.
fn both(rt: &impl Print, name: &str, job: LentJob, plan: &[u8]) -> io::Result<()> {
    let routes = told::route_told(checks::check_routes(job, plan));
    print_line(rt, name, "routes", routes)?;
    let meetings = told::meeting_told(checks::check_meetings(job, plan));
    print_line(rt, name, "meetings", meetings)
}

// Jobs worked by hand: 3 by 3, 3→5 and 1→7, H 4.
fn worked_squares(rt: &impl Print) -> io::Result<()> {
    let job = square(&[(3, 5), (1, 7)], 4);
    let straight = [3, 3, 4, 5, 5, 1, 4, 7, 7, 7];
    let round = [3, 0, 1, 2, 5, 1, 4, 7, 7, 7];
    both(rt, "square slip 0", job, &straight)?;
    both(rt, "square slip 0 plan at slip 1", slow(job, 1), &straight)?;
    both(rt, "square slip 1", slow(job, 1), &round)?;
    both(rt, "square slip 1 plan at slip 2", slow(job, 2), &round)
}

// Jobs worked by hand: one row.
fn worked_rows(rt: &impl Print) -> io::Result<()> {
    both(rt, "row H 2", row(&[(0, 2)], 2), &[0, 1, 2])?;
    both(rt, "row H 1", row(&[(0, 2)], 1), &[0, 1])?;
    let head_on = row(&[(0, 2), (2, 0)], 2);
    both(rt, "row head on", head_on, &[0, 1, 2, 2, 1, 0])?;
    both(rt, "one cell", lent(b".", 1, 1, &[(0, 0)], 0), &[0])?;
    let swap = lent(b"..", 2, 1, &[(0, 1), (1, 0)], 1);
    both(rt, "two cells", swap, &[0, 1, 1, 0])?;
    both(rt, "two cells slip 1", slow(swap, 1), &[0, 1, 1, 0])
}

// Jobs worked by hand: one carrier behind the other, and the one that parks in the way.
fn worked_followers(rt: &impl Print) -> io::Result<()> {
    let behind = row(&[(0, 1), (1, 2)], 1);
    both(rt, "follow slip 0", behind, &[0, 1, 1, 2])?;
    both(rt, "follow slip 1", slow(behind, 1), &[0, 1, 1, 2])?;
    let later = slow(row(&[(0, 1), (1, 2)], 2), 1);
    both(rt, "follow slip 1 H 2", later, &[0, 0, 1, 1, 2, 2])?;
    let crossing = lent(b"........", 4, 2, &[(6, 2), (0, 3)], 3);
    both(rt, "crossing", crossing, &[6, 6, 6, 2, 0, 1, 2, 3])?;
    both(rt, "crossing parked", crossing, &[6, 2, 2, 2, 0, 1, 2, 3])
}

// The route check: starts, moves and cells of 3→5, 3 by 3, H 4.
fn wrong_moves(rt: &impl Print) -> io::Result<()> {
    let job = square(&[(3, 5)], 4);
    both(rt, "wrong start", job, &[4, 4, 4, 5, 5])?;
    both(rt, "jump", job, &[3, 3, 5, 5, 5])?;
    both(rt, "diagonal", job, &[3, 1, 4, 5, 5])?;
    both(rt, "round the edge", job, &[3, 2, 5, 5, 5])?;
    both(rt, "off the grid", job, &[3, 6, 9, 6, 3])?;
    both(rt, "no cell", job, &[3, 4, 5, 255, 5])?;
    let closed = lent(b"....#....", 3, 3, &[(3, 5)], 4);
    both(rt, "closed cell", closed, &[3, 4, 5, 5, 5])
}

// The route check: the goal at the last step.
fn wrong_goals(rt: &impl Print) -> io::Result<()> {
    let job = square(&[(3, 5)], 4);
    both(rt, "wrong goal", job, &[3, 3, 4, 4, 4])?;
    both(rt, "leaves the goal", job, &[3, 4, 5, 5, 8])?;
    both(rt, "over the goal and back", job, &[3, 4, 5, 8, 5])?;
    both(rt, "move and goal wrong", job, &[3, 4, 5, 5, 3])?;
    let no_step = lent(b"..", 2, 1, &[(0, 1)], 0);
    both(rt, "no step, goal elsewhere", no_step, &[0])?;
    both(rt, "no step, start elsewhere", no_step, &[1])
}

// The route check: the first carrier, and its first step; and the length of the plan.
fn wrong_carriers(rt: &impl Print) -> io::Result<()> {
    let one = square(&[(3, 5)], 4);
    let two = square(&[(3, 5), (1, 7)], 4);
    both(rt, "second carrier", two, &[3, 3, 4, 5, 5, 1, 4, 7, 7, 8])?;
    both(rt, "both carriers", two, &[3, 3, 4, 5, 4, 0, 4, 7, 7, 7])?;
    both(rt, "two wrong steps", two, &[3, 3, 4, 5, 5, 1, 8, 7, 2, 7])?;
    both(rt, "bytes behind", one, &[3, 3, 4, 5, 5, 200, 200])?;
    both(rt, "one byte short", two, &[3, 3, 4, 5, 5, 1, 4, 7, 7])?;
    both(rt, "no byte", one, b"")
}

// The meeting check: distances from 0 to the earlier carrier's slip, both steps at most H.
fn meetings(rt: &impl Print) -> io::Result<()> {
    let job = square(&[(3, 5), (1, 7)], 4);
    let later = [3, 4, 5, 5, 5, 1, 1, 4, 7, 7];
    let distant = [3, 0, 1, 2, 5, 1, 4, 7, 7, 7];
    both(rt, "same step", job, &[3, 4, 5, 5, 5, 1, 4, 7, 7, 7])?;
    both(rt, "lower number earlier", slow(job, 1), &later)?;
    both(rt, "lower number earlier slip 0", job, &later)?;
    both(rt, "distance 2 at slip 4", slow(job, 4), &distant)?;
    let behind = slow(row(&[(0, 1), (1, 2)], 2), 1);
    both(rt, "parked, met at H", behind, &[0, 0, 1, 1, 1, 2])?;
    let job = row(&[(0, 1), (1, 2)], 1);
    both(rt, "bytes that are no cells", job, &[200, 1, 200, 2])
}

// The meeting check: swaps, where neither slips.
fn swaps(rt: &impl Print) -> io::Result<()> {
    let three = row(&[(0, 0), (1, 2), (2, 1)], 1);
    let plan = [0, 0, 1, 2, 2, 1];
    both(rt, "second and third swap", three, &plan)?;
    both(rt, "second and third swap slip 1", slow(three, 1), &plan)?;
    let far = row(&[(0, 2), (2, 0)], 1);
    both(rt, "far swap", far, &[0, 2, 2, 0])?;
    let late = row(&[(0, 1), (1, 0)], 2);
    both(rt, "swap at the last step", late, &[0, 0, 1, 1, 1, 0])
}

// The meeting check: slips of their own. 'u − t lies from −(slip of j) to slip of i'; 'Swaps count only between two carriers of slip 0.'
fn own_slips(rt: &impl Print) -> io::Result<()> {
    let behind = row(&[(0, 1), (1, 2)], 1);
    let plan = [0, 1, 1, 2];
    both(rt, "follow slips 0 and 1", own(behind, [0, 1, 0]), &plan)?;
    both(rt, "follow slips 1 and 0", own(behind, [1, 0, 0]), &plan)?;
    let swap = lent(b"..", 2, 1, &[(0, 1), (1, 0)], 1);
    let plan = [0, 1, 1, 0];
    both(rt, "two cells slips 0 and 1", own(swap, [0, 1, 0]), &plan)?;
    both(rt, "two cells slips 1 and 0", own(swap, [1, 0, 0]), &plan)?;
    let swap = own(row(&[(0, 1), (1, 0), (2, 2)], 1), [0, 0, 4]);
    let name = "first and second swap, third slips";
    both(rt, name, swap, &[0, 1, 1, 0, 2, 2])?;
    let job = own(row(&[(0, 2), (1, 0), (2, 1)], 1), [0, 1, 1]);
    let name = "earlier carrier before the smaller number";
    both(rt, name, job, &[0, 2, 1, 0, 2, 1])?;
    let job = lent(b"........", 4, 2, &[(0, 3), (3, 0)], 8);
    let plan = [0, 1, 5, 6, 2, 3, 3, 3, 3, 3, 2, 1, 0, 0, 0, 0, 0, 0];
    both(rt, "box and tray", own(job, [0, 1, 0]), &plan)?;
    let exchanged = own(job, [1, 0, 0]);
    both(rt, "box and tray, slips exchanged", exchanged, &plan)
}

// Rule 5: which of several is told.
fn chosen(rt: &impl Print) -> io::Result<()> {
    let job = row(&[(0, 1), (1, 0), (2, 2)], 1);
    let name = "meeting before a swap at its step";
    both(rt, name, job, &[0, 1, 1, 0, 1, 1])?;
    let name = "swap before a later meeting";
    both(rt, name, job, &[0, 1, 1, 0, 2, 1])?;
    let job = slow(square(&[(0, 1), (5, 0), (8, 5)], 1), 1);
    let name = "least distance before least carrier";
    both(rt, name, job, &[0, 1, 5, 0, 5, 5])?;
    let job = square(&[(4, 4), (5, 5), (6, 6)], 0);
    both(rt, "least carriers", job, &[4, 4, 4])
}

// A job that is refused, whatever the plan.
fn refused(rt: &impl Print, name: &str, job: LentJob) -> io::Result<()> {
    both(rt, name, job, &[0])
}

// Answers 1 to 3.
fn refused_halls(rt: &impl Print) -> io::Result<()> {
    let wide = b".................";
    refused(rt, "width 0", lent(b"", 0, 1, &[(0, 0)], 0))?;
    refused(rt, "width 17", lent(wide, 17, 1, &[(0, 0)], 0))?;
    refused(rt, "height 0", lent(b"", 1, 0, &[(0, 0)], 0))?;
    refused(rt, "height 17", lent(wide, 1, 17, &[(0, 0)], 0))?;
    refused(rt, "hall short", lent(b"........", 3, 3, &[(3, 5)], 0))?;
    refused(rt, "hall long", lent(b"..........", 3, 3, &[(3, 5)], 0))?;
    refused(rt, "wrong byte", lent(b"........x", 3, 3, &[(3, 5)], 0))
}

// Answers 3 to 6 and 16.
fn refused_carriers(rt: &impl Print) -> io::Result<()> {
    refused(rt, "slip 5", slow(square(&[(3, 5)], 0), 5))?;
    refused(rt, "H 64", square(&[(3, 5)], 64))?;
    refused(rt, "no carrier", many(square(&[], 0), 0))?;
    refused(rt, "nine carriers", many(square(&[], 0), 9))?;
    refused(rt, "start outside", square(&[(9, 5)], 0))?;
    let closed = lent(b"........#", 3, 3, &[(0, 1), (2, 8)], 0);
    refused(rt, "goal closed", closed)?;
    let one_start = square(&[(0, 1), (2, 3), (2, 4)], 0);
    refused(rt, "start shared", one_start)?;
    let one_goal = square(&[(0, 4), (1, 3), (2, 4)], 0);
    refused(rt, "goal shared", one_goal)
}

// 'If several apply, the lowest number is given', 16 'directly after 6'.
fn lowest_number(rt: &impl Print) -> io::Result<()> {
    let job = slow(lent(b".", 1, 1, &[(0, 0)], 64), 5);
    refused(rt, "H 64 and slip 5", job)?;
    let job = own(lent(b"..", 2, 1, &[(0, 1), (0, 0)], 0), [4, 5, 0]);
    refused(rt, "slip 5 and start shared", job)?;
    let outside = lent(b"..", 2, 1, &[(0, 0), (1, 1), (9, 0)], 0);
    let job = own(outside, [0, 255, 0]);
    refused(rt, "slip 255 and a later start outside", job)?;
    let job = slow(lent(b"", 0, 1, &[(0, 0)], 0), 5);
    refused(rt, "width 0 and slip 5", job)?;
    let job = many(lent(b"x", 1, 1, &[], 0), 0);
    refused(rt, "wrong byte and no carrier", job)?;
    let job = slow(many(lent(b".", 1, 1, &[], 0), 9), 5);
    refused(rt, "nine carriers and slip 5", job)?;
    let job = lent(b"#", 1, 1, &[(0, 0), (0, 0)], 0);
    both(rt, "closed and shared", job, &[0, 0])?;
    let job = lent(b".", 1, 1, &[(0, 0), (0, 0)], 0);
    refused(rt, "shared and short", job)?;
    let job = row(&[(0, 2), (1, 2), (1, 0)], 0);
    let name = "goals of 0 and 1 and starts of 1 and 2 shared";
    refused(rt, name, job)?;
    refused(rt, "goal shared and short", row(&[(0, 2), (1, 2)], 2))
}

fn main(rt: HostRuntime) -> io::Result<()> {
    worked_squares(&rt)?;
    worked_rows(&rt)?;
    worked_followers(&rt)?;
    wrong_moves(&rt)?;
    wrong_goals(&rt)?;
    wrong_carriers(&rt)?;
    meetings(&rt)?;
    swaps(&rt)?;
    own_slips(&rt)?;
    chosen(&rt)?;
    refused_halls(&rt)?;
    refused_carriers(&rt)?;
    lowest_number(&rt)
}
