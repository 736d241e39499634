// The best route of a carrier for C and Rust, libroute_bench.a, for the benchmark: the function of crate route_bench that looks at its
// arguments, exported under its own name with the clauses that it has there. A crate of its own: the kit builds a
// crate as a library or as a static library, and Rattle code stands on `route_bench`.
#![tactic(auto)]

ghost use Rattle.route_bench.specs.Answer.{RightArguments, hall_of, bars_at, Answered};

// The cost of the best route, and the route in the stretch, for any arguments: 254 where they are not right.
#[unsafe(no_mangle)]
pub extern "C" fn adfulmise_best_route(
    hall: &[u8],
    width: usize,
    height: usize,
    start: usize,
    goal: usize,
    h: usize,
    columns: &[u16],
    capacity: usize,
    node: usize,
    carrier: usize,
    layers: &mut [u8],
    stretch: &mut [u8],
) -> usize
    ensures { Answered (RightArguments hall.now width height start goal h columns.now capacity node layers.old stretch.old) (hall_of width height hall.now) (bars_at capacity columns.now node carrier) start goal h layers.old layers.new stretch.old stretch.new result }
{
    route_bench::adfulmise_best_route(
        hall, width, height, start, goal, h, columns, capacity, node, carrier, layers, stretch,
    )
}
