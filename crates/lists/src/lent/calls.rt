// Making a list, looking at it, and adding to it.
ghost use Rattle.std.specs.Prelude.{◌≡◌, ◌==◌, [], length};
ghost use Rattle.lists.specs.Lists.{entries, rest, Pushed};

use crate::lent::{LentList, NoPlace};

impl<'a, T: Copy> LentList<'a, T> {
    // A list with no entries yet.
    pub fn over(places: &'a mut [T]) -> LentList<'a, T>
        ensures same { result.places.ghost_name ≡ places.entry.ghost_name }
        ensures entries { entries result ≡ [] }
        ensures rest { rest result ≡ places.old }
    {
        LentList { places, len: 0 }
    }

    pub fn entries(&self) -> &[T]
        ensures { result.now ≡ entries self.now }
    {
        &self.places[..self.len]
    }

    // No place is left.
    pub fn is_full(&self) -> bool
        ensures { result ≡ (length (rest self.now) == 0) }
    {
        self.len >= self.places.len()
    }

    // One entry more, in the first place that is left. Where none is, the list stays as it is.
    pub fn push(&mut self, x: T) -> Result<(), NoPlace>
        ensures { Pushed self.old self.new x result }
    {
        if self.is_full() {
            return Err(NoPlace);
        }
        self.places[self.len] = x;
        self.len += 1;
        Ok(())
    }
}
