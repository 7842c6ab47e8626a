// Where a search stands.
ghost use Rattle.std.specs.Prelude.{◌≡◌, ◌≤◌, true, vec_capacity};
ghost use Rattle.memory.specs.Limits.{most_records};
ghost use Rattle.search.specs.Placing.{distinct};

mod look;
mod make;
mod place;
mod step;

// The records placed so far, in their order, and the mark, above which the next is looked for, if there is one. The room is reserved when
// the search is made, so that no step allocates.
#[derive(Drop)]
pub struct Search {
    placed: Vec<u8>,
    mark: Option<u8>,
    ghost room: { most_records ≤ vec_capacity placed },
    ghost apart: { distinct most_records placed.items ≡ true },
}
