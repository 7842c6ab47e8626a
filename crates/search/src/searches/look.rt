// Looking at where a search stands.
ghost use Rattle.std.specs.Prelude.{◌≡◌};
ghost use Rattle.search.specs.Views.{standing_of};

use crate::searches::Search;

impl Search {
    pub fn placed(&self) -> &[u8]
        ensures { result.now ≡ (standing_of self.now).placed }
    {
        self.placed.as_slice()
    }

    pub fn mark(&self) -> Option<u8>
        ensures { result ≡ (standing_of self.now).mark }
    {
        self.mark
    }
}
