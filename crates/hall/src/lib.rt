// The floor of document 01: its bytes, its open cells and the five moves.
#![tactic(auto)]

ghost use Rattle.std.specs.Prelude.{◌*◌, ◌≤◌, ◌<◌, ◌&&◌, ◌||◌, ◌≡◌, eqb, is_none, IfSome, ltb, leb, get_or};
ghost use Rattle.lists.specs.Lists.{any_of};
ghost use Rattle.hall.specs.Hall.{wrong_side, wrong_byte, wrong_bytes, is_open};
ghost use Rattle.hall.specs.Moves.{row_changes, col_changes, on_grid, landing, reach_from, may_follow};
ghost use Rattle.hall.specs.Landing.{landed};

// 'A hall byte is 46 ('.', open) or 35 ('#', closed).'
pub const OPEN: u8 = 46;

const CLOSED: u8 = 35;

// 'A hall is a grid of 1 to 16 columns (width) by 1 to 16 rows (height).'
pub const MOST_SIDE: usize = 16;

// One of the five moves, as a change of row and a change of column.
#[derive(Clone, Copy)]
pub struct Move {
    pub row: i8,
    pub col: i8,
}

// 'From a cell a carrier may go one cell up, left, right or down, or stay; a constant table holds the five moves.' A
// move goes by its number in that table, here and in every crate above (m < 5): document 01 names the form ('How to write each place').
const MOVES: [Move; 5] = [
    Move { row: -1, col: 0 },
    Move { row: 0, col: -1 },
    Move { row: 0, col: 0 },
    Move { row: 0, col: 1 },
    Move { row: 1, col: 0 },
];

pub const MOVE_COUNT: usize = 5;

// How far down move m goes, counted one up: 0 is one row up. A bound on a number, here and above, stays in the clause: a type for it would
// ask more of callers.
pub fn down(m: usize) -> usize
    requires { m < 5 }
    ensures { result ≡ get_or row_changes m 1 }
{
    (MOVES[m].row + 1) as usize
}

// How far right move m goes, counted one up: 0 is one column left.
pub fn right(m: usize) -> usize
    requires { m < 5 }
    ensures { result ≡ get_or col_changes m 1 }
{
    (MOVES[m].col + 1) as usize
}

// A byte that is neither open nor closed.
#[tactic(auto, unfolding(crate::specs::Hall::wrong_byte))]
fn wrong_byte(b: u8) -> bool
    ensures { result ≡ wrong_byte b }
{
    b != OPEN && b != CLOSED
}

// A number from 1 to `most`.
fn within(n: usize, most: usize) -> bool
    ensures { result ≡ (ltb 0 n && leb n most) }
{
    (1..=most).contains(&n)
}

// ---- the grid

// Columns and rows, neither above 16. A side of 0 is let in, as it was: bytes, cells and landings are promised for such a grid too.
#[derive(Clone, Copy)]
pub struct Grid {
    pub width: usize,
    pub height: usize,
    pub ghost in_range: { (width ≤ 16) × (height ≤ 16) },
}

impl Grid {
    // The grid of these sides, or none where answer 1 is due: 'width or height is 0 or above 16'.
    #[tactic(auto, unfolding(crate::specs::Hall::wrong_side))]
    pub fn new(width: usize, height: usize) -> Option<Grid>
        ensures refused { is_none result ≡ (wrong_side width || wrong_side height) }
        ensures sides { IfSome result (λ grid. (grid.width ≡ width) × (grid.height ≡ height)) }
    {
        if within(width, MOST_SIDE) && within(height, MOST_SIDE) {
            Some(Grid { width, height })
        } else {
            None
        }
    }

    // How many cells it has.
    pub fn size(self) -> usize
        ensures { result ≡ self.width * self.height }
    {
        self.width * self.height
    }

    // A row and a column counted from 1: 'It never leaves the grid'.
    #[tactic(auto, unfolding(crate::specs::Moves::on_grid))]
    fn holds(self, r: usize, c: usize) -> bool
        ensures { result ≡ on_grid self.width self.height r c }
    {
        within(r, self.height) && within(c, self.width)
    }

    // The cell that move m leads to from a row and a column, or none where it leaves the grid.
    #[tactic(auto, using(crate::proofs::HallCode::grid_bounds, crate::proofs::HallCode::landed_cell, crate::proofs::HallCode::landed_off))]
    pub fn landing_at(self, row: usize, col: usize, m: usize) -> Option<usize>
        requires { (row < 256) × (col < 256) × (m < 5) }
        ensures { landed result ≡ landing self.width self.height row col m }
    {
        let r = row + down(m);
        let c = col + right(m);
        if self.holds(r, c) {
            Some((r - 1) * self.width + (c - 1))
        } else {
            None
        }
    }

    // Does move m lead to `to`?
    #[tactic(auto, unfolding(crate::specs::Landing::landed, lists::specs::Lists::any_of))]
    pub fn lands_on(self, row: usize, col: usize, m: usize, to: usize) -> bool
        requires { (row < 256) × (col < 256) × (m < 5) }
        ensures { result ≡ any_of (eqb to) (landing self.width self.height row col m) }
    {
        self.landing_at(row, col, m) == Some(to)
    }

    // Is `to` one move or a stay away from the cell at a row and a column?
    fn reaches(self, row: usize, col: usize, to: usize) -> bool
        requires { (row < 256) × (col < 256) }
        ensures { result ≡ any_of (eqb to) (reach_from self.width self.height row col) }
    {
        (0..MOVE_COUNT).any(|m| self.lands_on(row, col, m, to))
    }
}

// ---- the hall

// A hall as it is lent: a grid, and bytes, of which nothing is known.
#[derive(Clone, Copy)]
pub struct Hall<'a> {
    pub grid: Grid,
    pub bytes: &'a [u8],
}

impl<'a> Hall<'a> {
    ghost use Rattle.hall.specs.Lent.{lent_hall};

    // Answer 2: 'the hall hasn't width × height bytes, or a byte is neither 46 nor 35'.
    #[tactic(auto, unfolding(crate::specs::Hall::wrong_bytes))]
    pub fn wrong_bytes(self) -> bool
        ensures { result ≡ wrong_bytes (lent_hall self.entry) }
    {
        self.bytes.len() != self.grid.size() || self.bytes.iter().any(|b| wrong_byte(*b))
    }

    // A cell of the grid that is not closed. The length is tested too, so that any bytes may be lent.
    #[tactic(auto, unfolding(crate::specs::Hall::is_open))]
    pub fn is_open(self, cell: usize) -> bool
        ensures { result ≡ is_open (lent_hall self.entry) cell }
    {
        cell < self.grid.size() && self.bytes.get(cell) == Some(&OPEN)
    }

    // May a carrier that is on `from` be on `to` a step later? 'It never leaves the grid nor enters a closed cell.'
    pub fn follows(self, from: usize, to: usize) -> bool
        requires { (1 ≤ self.grid.width) × (from < 256) }
        ensures { result ≡ any_of (eqb to) (may_follow (lent_hall self.entry) from) }
    {
        let width = self.grid.width;
        self.is_open(to) && self.grid.reaches(from / width, from % width, to)
    }
}
