// A list of lines, with room for every pair of two records.
ghost use Rattle.std.specs.Prelude.{◌≡◌, ◌≤◌, true, vec_capacity};
ghost use Rattle.memory.specs.Limits.{most_lines, most_records};
ghost use Rattle.inference.specs.Paired.{paired};

use memory::lines::Line;

mod infer;

// The lines in the order in which they were listed. The room is reserved when the list is made, so that listing does not allocate.
#[derive(Drop)]
pub struct Lines {
    items: Vec<Line>,
    ghost room: { most_lines ≤ vec_capacity items },
    ghost pairs: { paired most_records items.items ≡ true },
}

// How many lines were listed, and whether the last of them is opposed to one before it. Both are told whatever happened, so that
// neither could be left out of an Option.
#[derive(Clone, Copy)]
pub struct Listed {
    pub count: u64,
    pub opposed: bool,
}
