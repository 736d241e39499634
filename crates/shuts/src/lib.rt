// The moves that are shut at a step, for all cells: a byte for each move and cell, and one more for each cell that says whether it is
// closed, so that filling a layer asks nothing else.
#![tactic(auto)]

ghost use Rattle.std.specs.Prelude.{◌+◌, ◌*◌, max, ◌≤◌, ◌<◌, not, ◌≡◌, eqb, length, get_or, replicate};
ghost use Rattle.lent.specs.Made.{Made};
ghost use Rattle.shuts.specs.Shuts.{has_digit, shut_if};
ghost use Rattle.shuts.specs.Post.{lent_hall, RightGrid, ShutEach, FloorLaid, CrossingsLaid, LaidAt};

use hall::Grid;

// A byte for each cell, move by move, and then the closed cells.
pub const CELLS: usize = 256;

pub const CLOSED: usize = 1280;

pub const SHUTS: usize = 1536;

// The stay is the third of the five moves.
pub const STAY: usize = 2;

const SHUT: u8 = 255;

// Is the binary digit of move m set?
#[tactic(auto, unfolding(crate::specs::Shuts::has_digit))]
pub fn has_digit(digits: u8, m: usize) -> bool
    requires { m < 5 }
    ensures { result ≡ has_digit digits m }
{
    (digits >> m) % 2 == 1
}

#[tactic(auto, unfolding(crate::specs::Shuts::shut_if))]
fn shut_if(shut: bool) -> u8
    ensures { result ≡ shut_if shut }
{
    if shut { SHUT } else { 0 }
}

// ---- the floor

// The closed cells. Where entries are written the table is lent as a slice, whose length a contract can name.
fn shut_closed(hall: &[u8], shuts: &mut [u8])
    requires { (length hall.now ≤ 256) × (length shuts.old ≡ 1536) }
    ensures { Made 1280 (length hall.now) (λ v x. shut_if (not (eqb (get_or hall.now v 0) 46))) shuts.old shuts.new }
{
    for (v, cell) in hall.iter().enumerate() {
        shuts[CLOSED + v] = shut_if(*cell != hall::OPEN);
    }
}

// Every stride-th cell from `first` up to `until`.
fn shut_each(m: usize, first: usize, until: usize, stride: usize, shuts: &mut [u8])
    requires { (m < 5) × (until ≤ 256) × (1 ≤ stride) × (stride ≤ 256) × (length shuts.old ≡ 1536) }
    ensures { ShutEach m first until stride shuts.old shuts.new }
{
    for v in (first..until).step_by(stride) {
        shuts[m * CELLS + v] = SHUT;
    }
}

// What no bar changes: 'It never leaves the grid nor enters a closed cell.' Left leaves it from the first column, right from the last.
// Bytes and grid stand apart as in `layers::seek_route`.
pub fn lay_floor(hall: &[u8], grid: Grid, shuts: &mut [u8; SHUTS])
    requires { RightGrid grid hall.now × (shuts.old ≡ replicate 1536 0) }
    ensures { FloorLaid (lent_hall grid hall.now) shuts.old shuts.new }
{
    let size = grid.size();
    shut_closed(hall, shuts);
    shut_each(1, 0, size, grid.width, shuts);
    shut_each(3, grid.width - 1, size, grid.width, shuts);
}

// ---- the bars of a step

// The bytes of one move: the floor's, and shut where a bar has set its digit.
fn shut_crossings(floor: &[u8; SHUTS], digits: &[u8], m: usize, shuts: &mut [u8])
    requires { (m < 5) × (length digits.now ≤ 256) × (length shuts.old ≡ 1536) }
    ensures { Made (m * 256) (length digits.now) (λ v x. max (get_or floor.now (m * 256 + v) 0) (shut_if (has_digit (get_or digits.now v 0) m))) shuts.old shuts.new }
{
    for (v, cell) in digits.iter().enumerate() {
        let barred = shut_if(has_digit(*cell, m));
        shuts[m * CELLS + v] = floor[m * CELLS + v].max(barred);
    }
}

fn lay_crossings(floor: &[u8; SHUTS], digits: &[u8], shuts: &mut [u8; SHUTS])
    requires { length digits.now ≤ 256 }
    ensures { CrossingsLaid floor.now digits.now 0 (length digits.now) shuts.old shuts.new }
{
    for m in 0..hall::MOVE_COUNT {
        shut_crossings(floor, digits, m, shuts);
    }
}

// The shut moves of a step, of the digits in the layers from an entry on. Where no crossing is barred on the whole way they are the
// floor's at every step, and nothing is laid anew. Layers, entry and size stand as they are promised; within, the digits are a slice.
#[tactic(auto, unfolding(crate::specs::Post::LaidAt))]
pub fn lay_shuts(
    crossing: bool,
    floor: &[u8; SHUTS],
    layers: &[u8],
    from: usize,
    size: usize,
    shuts: &mut [u8; SHUTS],
)
    requires { (size ≤ 256) × (from + size ≤ length layers.now) }
    ensures { LaidAt crossing floor.now layers.now from size shuts.old shuts.new }
{
    if crossing {
        lay_crossings(floor, &layers[from..from + size], shuts);
    }
}
