// Making a search and clearing it.
ghost use Rattle.std.specs.Prelude.{◌≡◌, IfOk};
ghost use Rattle.search.specs.Placing.{fresh};
ghost use Rattle.search.specs.Views.{standing_of};

use crate::searches::Search;
use memory::limits::MOST_RECORDS;
use std::alloc::{AllocError, Global};

impl Search {
    pub fn new(heap: Global) -> Result<Search, AllocError>
        ensures { IfOk result (λ s. standing_of s ≡ fresh) }
    {
        let placed = Vec::with_capacity(heap, MOST_RECORDS)?;
        Ok(Search { placed, mark: None })
    }

    // Nothing is placed any more, and there is no mark.
    pub fn clear(&mut self)
        ensures { standing_of self.new ≡ fresh }
    {
        self.placed.clear();
        self.mark = None;
    }
}
