// Clearing and copying in lent tables, whatever they hold.
#![tactic(auto)]

ghost use Rattle.std.specs.Prelude.{◌+◌, ◌≤◌, ◌≡◌, ◌++◌, length, take, drop, replicate};
ghost use Rattle.std.proofs.Math.Seq.{paste};

// 'After 0, 8 and 9 the named least lengths of the first three tables are all zero and the rest unchanged.' The tables hold bytes
// or words, so the zero is given.
pub fn clear<T: Copy>(items: &mut [T], n: usize, zero: T)
    requires room { n ≤ length items.old }
    requires copied { (T.is_infallible zero) × ((y : T) → T.is_clone zero y → y ≡ zero) }
    ensures { items.new ≡ replicate n zero ++ drop n items.old }
{
    items[..n].fill(zero);
}

// 'Output changes only for 0: carrier by carrier, its cells for steps 0 to H, the rest unchanged.' Entry by entry: for `copy_from_slice`
// the archive needs `memmove`, and the header tells C of no function from outside but memset and memcpy.
pub fn copy_out(plans: &[u8], from: usize, n: usize, output: &mut [u8])
    requires { (from + n ≤ length plans.now) × (n ≤ length output.old) }
    ensures { output.new ≡ take n (drop from plans.now) ++ drop n output.old }
{
    for (i, cell) in plans[from..from + n].iter().enumerate() {
        output[i] = *cell;
    }
}

// 'Each node's routes fill their own stretch of the plans table': a child's stretch is first its parent's.
pub fn copy_stretch(plans: &mut [u8], from: usize, to: usize, n: usize)
    requires { (from + n ≤ to) × (to + n ≤ length plans.old) }
    ensures { plans.new ≡ paste plans.old to (take n (drop from plans.old)) n }
{
    plans.copy_within(from..from + n, to);
}
