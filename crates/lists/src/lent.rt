// The list and what is wrong where it is full.
ghost use Rattle.std.specs.Prelude.{◌≤◌, length};

mod calls;

// Every place is taken.
#[derive(Clone, Copy, Debug, PartialEq, Eq)]
pub struct NoPlace;

// Entries in the first places of a lent slice, in the order in which they came. The places behind them keep what they held.
#[derive(Drop)]
pub struct LentList<'a, T> {
    places: &'a mut [T],
    len: usize,
    ghost within: { len ≤ length places.now },
}
