// Clocks.
ghost use Rattle.std.specs.Prelude.{◌≡◌, ℕ, Bool};
ghost use Rattle.memory.specs.Clocks.{LawfulClock, below, never};
ghost use Rattle.std.proofs.Common.{rules};

// A clock says whether reading s of processor p is surely earlier than reading t of processor q.
pub trait Clock {
    const MARK: u8;

    ghost MARK: { ℕ };

    ghost earlier: { Self → ℕ → ℕ → ℕ → ℕ → Bool };

    fn surely_earlier(&self, p: u8, s: u64, q: u8, t: u64) -> bool
        ensures { result ≡ earlier self.now p s q t };

    // On one processor no reading is earlier than an equal or smaller one.
    ghost forward: { (c : Self) → LawfulClock (earlier c) };
}

// One counter for all processors.
#[derive(Clone, Copy)]
pub struct GlobalClock;

impl Clock for GlobalClock {
    const MARK: u8 = 1;

    ghost MARK = { 1 };

    ghost earlier = { λ _. below };

    ghost forward = { Prim.search rules };

    fn surely_earlier(&self, _p: u8, s: u64, _q: u8, t: u64) -> bool {
        s < t
    }
}

// Counters that say nothing.
#[derive(Clone, Copy)]
pub struct NoClock;

impl Clock for NoClock {
    const MARK: u8 = 3;

    ghost MARK = { 3 };

    ghost earlier = { λ _. never };

    ghost forward = { Prim.search rules };

    fn surely_earlier(&self, _p: u8, _s: u64, _q: u8, _t: u64) -> bool {
        false
    }
}
