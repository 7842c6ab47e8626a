// The kinds of records.
ghost use Rattle.std.specs.Prelude.{◌≡◌, ok_or};
ghost use Rattle.memory.specs.Kinds.{kind_number, kind_at, is_load, is_store, is_fence};
ghost use Rattle.memory.specs.declared.refusals.Refusal.TheVariants as refuse;

use crate::refusals::Refusal;

// Each kind with its number.
#[derive(Clone, Copy, Debug, PartialEq, Eq)]
pub enum Kind {
    Load = 1,
    Store = 2,
    Fence = 3,
}

// Written out for each enum that has numbers: an impl by a macro could have no clause.
impl From<Kind> for u8 {
    ghost from_gives = { λ kind r. r ≡ kind_number kind };

    fn from(kind: Kind) -> u8 {
        kind as u8
    }
}

// The kind with a number; the refusal Kind where there is none.
impl TryFrom<u8> for Kind {
    type Error = Refusal;

    ghost try_from_gives = { λ number r. r ≡ ok_or (kind_at number) refuse.Kind };

    fn try_from(number: u8) -> Result<Kind, Refusal> {
        match number {
            1 => Ok(Kind::Load),
            2 => Ok(Kind::Store),
            3 => Ok(Kind::Fence),
            _ => Err(Refusal::Kind),
        }
    }
}

// Each question has its relation in the specs, which a comparison in its place would not name.
impl Kind {
    pub fn is_load(self) -> bool
        ensures { result ≡ is_load self }
    {
        self == Kind::Load
    }

    pub fn is_store(self) -> bool
        ensures { result ≡ is_store self }
    {
        self == Kind::Store
    }

    pub fn is_fence(self) -> bool
        ensures { result ≡ is_fence self }
    {
        self == Kind::Fence
    }
}
