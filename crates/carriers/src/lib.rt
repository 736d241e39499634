// The forms in which a caller lends the carriers, turned into a team by value.
#![tactic(auto)]

ghost use Rattle.std.specs.Prelude.{◌≡◌, ◌<◌, get_or};
ghost use Rattle.carriers.specs.Lent.{every_third, bytes_team, record_at, records_team};

use job::Team;
use std::array::from_fn;

fn byte_or_zero(bytes: &[u8], at: usize) -> u8
    ensures { result ≡ get_or bytes.now at 0 }
{
    bytes.get(at).copied().unwrap_or(0)
}

// What every third byte from `at` on says, for eight carriers.
fn every_third(bytes: &[u8], at: usize) -> [u8; 8]
    requires { at < 3 }
    ensures { result ≡ every_third bytes.now at }
{
    from_fn(|i| byte_or_zero(bytes, at + 3 * i))
}

// The parser of a book's second body: start, goal and slip bytes in turn. Past eight carriers only their count is known, which is
// enough to refuse them.
pub fn team_of_bytes(bytes: &[u8]) -> Team
    ensures { result ≡ bytes_team bytes.now }
{
    Team {
        starts: every_third(bytes, 0),
        goals: every_third(bytes, 1),
        slips: every_third(bytes, 2),
        count: bytes.len() / 3,
    }
}

// 'each a record of start cell and goal cell', and P3: 'Each carrier's record now has its own slip'. Three bytes in this order, as C
// has them too.
#[repr(C)]
#[derive(Clone, Copy, Default)]
pub struct Carrier {
    pub start: u8,
    pub goal: u8,
    pub slip: u8,
}

// The record at i, or one of three zeros where there is none.
fn carrier_or(carriers: &[Carrier], i: usize) -> Carrier
    ensures { result ≡ record_at carriers.now i }
{
    carriers.get(i).copied().unwrap_or_default()
}

// Past eight carriers only their count is known, as above.
pub fn team_of_records(carriers: &[Carrier]) -> Team
    ensures { result ≡ records_team carriers.now }
{
    Team {
        starts: from_fn(|i| carrier_or(carriers, i).start),
        goals: from_fn(|i| carrier_or(carriers, i).goal),
        slips: from_fn(|i| carrier_or(carriers, i).slip),
        count: carriers.len(),
    }
}
