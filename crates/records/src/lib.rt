// The records of the nodes in the lent columns, and the bars in them.
#![tactic(auto)]

ghost use Rattle.std.specs.Prelude.{◌*◌, ◌≤◌, ◌<◌, ◌≡◌, length};
ghost use Rattle.records.specs.Columns.{entry, bar_at};

use routes::Bar;

// 'Record columns, 16-bit, at least 8 × N': the parent, the kind of bar, the barred carrier, three numbers of the bar,
// the sum, and whether the node is open, each with an entry for each node. Columns and kinds are numbers, since the table is lent memory of
// 16-bit numbers, laid out as the caller in C is told.
pub const PARENT: usize = 0;

pub const KIND: usize = 1;

pub const CARRIER: usize = 2;

pub const FIRST: usize = 3;

pub const SECOND: usize = 4;

pub const THIRD: usize = 5;

pub const SUM: usize = 6;

pub const OPEN: usize = 7;

// The kinds of bar; any other number is no bar.
pub const STAY: usize = 1;

pub const CROSSING: usize = 2;

// The entry of a node in a column. The columns and N stay two parameters, here and in crates marks and tables: who holds them mostly lends
// the columns to be written too (`tables::write_record`), and would take a struct of both apart at each such call.
pub fn entry_at(columns: &[u16], capacity: usize, column: usize, node: usize) -> usize
    requires { (node < capacity) × (capacity ≤ 1024) × (8 * capacity ≤ length columns.now) × (column < 8) }
    ensures { result ≡ entry capacity columns.now column node }
{
    columns[column * capacity + node] as usize
}

// The bar in a node's own record.
#[tactic(auto, unfolding(crate::specs::Columns::bar_at, crate::specs::Columns::bar_from))]
pub fn bar_at(columns: &[u16], capacity: usize, node: usize) -> Bar
    requires { (node < capacity) × (capacity ≤ 1024) × (8 * capacity ≤ length columns.now) }
    ensures { result ≡ bar_at capacity columns.now node }
{
    let number = |column| entry_at(columns, capacity, column, node);
    match number(KIND) {
        STAY => Bar::Stay {
            cell: number(FIRST),
            first: number(SECOND),
            last: number(THIRD),
        },
        CROSSING => Bar::Cross {
            from: number(FIRST),
            to: number(SECOND),
            step: number(THIRD),
        },
        _ => Bar::Free,
    }
}
