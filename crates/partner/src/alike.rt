ghost use Rattle.std.specs.Prelude.{◌≡◌, true, ◌+◌, ◌≤◌, length, take, drop};
ghost use Rattle.partner.specs.Posts.{SameAt, alike_of};

// The first bytes of ours stand in theirs from a place on, if it says so. It looks at all of them,
// whatever the first are, so that many can be looked at at once.
fn all_alike(ours: &[u8], most: usize, theirs: &[u8], at: usize) -> bool
    requires most_in_bounds { most ≤ length ours.now }
    requires most_in_bounds_2 { at + most ≤ length theirs.now }
    ensures { result ≡ true → SameAt most ours.now 0 theirs.now at }
{
    let mut same = true;
    for i in 0..most {
        same = same & (ours[i] == theirs[at + i]);
    }
    same
}

// How many of the first n bytes of ours stand in theirs from a place on, before the first that does
// not.
pub fn alike(ours: &[u8], n: usize, theirs: &[u8], at: usize) -> usize
    requires n_in_bounds { n ≤ length ours.now }
    requires at_in_bounds { at ≤ length theirs.now }
    ensures { result ≡ alike_of (take n ours.now) (drop at theirs.now) }
{
    let most = n.min(theirs.len() - at);
    if all_alike(ours, most, theirs, at) {
        return most;
    }
    for i in 0..most {
        if ours[i] != theirs[at + i] {
            return i;
        }
    }
    most
}
