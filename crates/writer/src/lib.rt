// The best route of a carrier, read off the lent layers (crate layers) and written into a node's own stretch.
// Document 02, P2: 'take those with the fewest moves, and among these the first in dictionary order'. So from step 0 on it goes each time to
// the lowest cell by which as few moves are left as there may be, and stays where none is left.
#![tactic(auto)]

ghost use Rattle.std.specs.Prelude.{◌+◌, ◌*◌, ◌≤◌, ◌<◌, ◌≡◌, length, get_or};
ghost use Rattle.hall.specs.Landing.{landed};
ghost use Rattle.marks.specs.Post.{Layered};
ghost use Rattle.writer.specs.Write.{moves_by, wanted_on, stepped_to, read_route};

use hall::Grid;
use layers::Trip;

// ---- one step

// The moves of a way by move m, of those that are left where it leads: a stay is no move.
#[tactic(auto, unfolding(crate::specs::Write::moves_by))]
fn moves_by(left: u8, m: usize) -> u8
    ensures { result ≡ moves_by m left }
{
    if m == shuts::STAY {
        left
    } else {
        layers::one_more(left)
    }
}

// Layers that a route is read off, for the steps up to a horizon and the cells of a grid.
#[derive(Clone, Copy)]
struct Filled<'a> {
    layers: &'a [u8],
    grid: Grid,
    horizon: usize,
    ghost laid: { Layered grid.width grid.height horizon layers.now },
}

impl<'a> Filled<'a> {
    // The moves that are left on v at t.
    fn left(self, t: usize, v: usize) -> u8
        requires { (t ≤ self.horizon) × (v < self.grid.width * self.grid.height) }
        ensures { result ≡ get_or self.entry.layers.now (t * (self.entry.grid.width * self.entry.grid.height) + v) 0 }
    {
        self.layers[t * self.grid.size() + v]
    }

    // The digits of the moves that are barred from v at t.
    fn barred(self, t: usize, v: usize) -> u8
        requires { (t ≤ self.horizon) × (v < self.grid.width * self.grid.height) }
        ensures { result ≡ get_or self.entry.layers.now ((self.entry.horizon + 1) * (self.entry.grid.width * self.entry.grid.height) + t * (self.entry.grid.width * self.entry.grid.height) + v) 0 }
    {
        let size = self.grid.size();
        self.layers[(self.horizon + 1) * size + t * size + v]
    }

    // The cell at t + 1 that move m leads to from v at t, if no bar forbids it and as many moves are left by it as are on v.
    #[tactic(auto, unfolding(crate::specs::Write::wanted_by, hall::specs::Landing::landed, shuts::specs::Shuts::unless, lists::specs::Lists::keep, lists::specs::Lists::only))]
    fn goes_by(self, t: usize, v: usize, m: usize) -> Option<usize>
        requires { (t < self.horizon) × (v < self.grid.width * self.grid.height) × (m < 5) }
        ensures { landed result ≡ wanted_on self.entry.grid.width self.entry.grid.height self.entry.horizon self.entry.layers.now t v m }
    {
        if shuts::has_digit(self.barred(t, v), m) {
            return None;
        }
        let w = self
            .grid
            .landing_at(v / self.grid.width, v % self.grid.width, m)?;
        if moves_by(self.left(t + 1, w), m) == self.left(t, v) {
            Some(w)
        } else {
            None
        }
    }

    // The cell at t + 1 of the way from v at t: the first wanted in the order of moves, which is that of cells; the cell itself where there
    // is none.
    fn step_on(self, t: usize, v: usize) -> usize
        requires { (t < self.horizon) × (v < self.grid.width * self.grid.height) }
        ensures { result ≡ stepped_to self.entry.grid.width self.entry.grid.height self.entry.horizon self.entry.layers.now t v }
    {
        (0..hall::MOVE_COUNT)
            .find_map(|m| self.goes_by(t, v, m))
            .unwrap_or(v)
    }
}

// ---- all steps

// The route that the layers hold, into a stretch of h + 1 bytes: the best one, where a route was sought in them and found
// (`read_is_best`).
pub fn write_route(layers: &[u8], grid: Grid, trip: Trip, stretch: &mut [u8])
    requires { Layered grid.width grid.height trip.horizon layers.now × (trip.start < grid.width * grid.height) × (length stretch.old ≡ trip.horizon + 1) }
    ensures { stretch.new ≡ read_route grid.width grid.height trip.horizon layers.now trip.start }
{
    let horizon = trip.horizon;
    let filled = Filled {
        layers,
        grid,
        horizon,
    };
    let mut v = trip.start;
    for t in 0..horizon {
        if filled.left(t, v) == 0 {
            // no move is left: it stays
            stretch[t..].fill(v as u8);
            return;
        }
        stretch[t] = v as u8;
        v = filled.step_on(t, v);
    }
    stretch[horizon] = v as u8;
}
