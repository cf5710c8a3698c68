// Internal to the workspace, not open to callers: copying, clearing and reading lent slices, and counting. Assumes nothing but what each `requires` says.
ghost use Rattle.std.specs.Prelude.{◌≡◌, ◌+◌, ◌^◌, ◌≤◌, ◌<◌, length, replicate};
ghost use Rattle.lists.specs.Lists.{at, store};
ghost use Rattle.lists.specs.Inner.{one_more};

// Copies `src` into `dst`, which is as long.
pub fn put(dst: &mut [u64], src: &[u64])
    requires { length dst.old ≡ length src.now }
    ensures { dst.new ≡ src.now }
{
    for i in 0..dst.len() {
        dst[i] = src[i];
    }
}

// Stores `part` into `list` from index `at` on.
pub fn put_at(list: &mut [u64], at: usize, part: &[u64])
    requires { at + length part.now ≤ length list.old }
    ensures { list.new ≡ store list.old at part.now }
{
    put(&mut list[at..at + part.len()], part);
}

// Fills `row` with zeros.
pub fn clear(row: &mut [u64])
    ensures { row.new ≡ replicate (length row.old) 0 }
{
    row.fill(0);
}

// The number at index i, 0 past the end.
pub fn number(list: &[u64], i: usize) -> u64
    ensures { result ≡ at list.now i }
{
    list.get(i).copied().unwrap_or(0)
}

// One more of `j`, if it is wanted.
pub fn one_more(wanted: bool, j: usize) -> usize
    requires { j < 2 ^ 63 }
    ensures { result ≡ one_more wanted j }
{
    j + usize::from(wanted)
}
