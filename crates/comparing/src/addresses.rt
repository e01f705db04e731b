// "every differing address in rising order".
ghost use Rattle.std.specs.Prelude.{◌≡◌, ◌≤◌, ◌+◌, length};
ghost use Rattle.comparing.specs.Cursors as Cursors;

// The first of so many addresses from one on at which the two differ; the end where there is none.
pub fn next_differing(first: &[u8], second: &[u8], from: usize, count: usize) -> usize
    requires { (from + count ≤ length first.now) × (from + count ≤ length second.now) }
    ensures { (result ≡ Cursors.next_differing count first.now second.now from) × (from ≤ result) × (result ≤ from + count) }
{
    let end = from + count;
    (from..end)
        .find(|at| first[*at] != second[*at])
        .unwrap_or(end)
}
