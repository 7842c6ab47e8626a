// Memory models.
ghost use Rattle.std.specs.Prelude.{◌≡◌, ℕ, Bool};
ghost use Rattle.memory.specs.declared.kinds.Kind.{Kind};
ghost use Rattle.memory.specs.Models.{sc, godson};

use crate::kinds::Kind;

// A model says of two records of one processor whether the earlier must come before the later.
// It sees both kinds and whether they share their address; a fence shares its address with nothing.
pub trait Model {
    const MARK: u8;

    ghost MARK: { ℕ };

    ghost orders: { Self → Kind → Kind → Bool → Bool };

    fn must_precede(&self, earlier: Kind, later: Kind, same_address: bool) -> bool
        ensures { result ≡ orders self.now earlier later same_address };
}

// Sequential consistency: every pair is ordered.
#[derive(Clone, Copy)]
pub struct Sc;

impl Model for Sc {
    const MARK: u8 = 1;

    ghost MARK = { 1 };

    ghost orders = { λ _. sc };

    fn must_precede(&self, _earlier: Kind, _later: Kind, _same_address: bool) -> bool {
        true
    }
}

// A fence comes before a later load, and everything before a later store or fence.
#[derive(Clone, Copy)]
pub struct Godson;

impl Model for Godson {
    const MARK: u8 = 3;

    ghost MARK = { 3 };

    ghost orders = { λ _. godson };

    fn must_precede(&self, earlier: Kind, later: Kind, _same_address: bool) -> bool {
        match (earlier, later) {
            (_, Kind::Store | Kind::Fence) => true,
            (Kind::Fence, Kind::Load) => true,
            (Kind::Load | Kind::Store, Kind::Load) => false,
        }
    }
}
