// What can be wrong with bytes, and with a run and a paper in bytes. A fault keeps its refusal and its place on its way up.
ghost use Rattle.std.specs.Prelude.{◌≡◌};
ghost use Rattle.wire.specs.Faults.{run_fault, paper_fault};
ghost use Rattle.wire.specs.declared.faults.RunFault.TheVariants.{Bytes};
ghost use Rattle.wire.specs.declared.faults.PaperFault.TheVariants as paper;

use memory::refusals::{Fault, Layer, Refusal};

// No field of the text stands at this place.
#[derive(Clone, Copy, Debug, PartialEq, Eq)]
pub struct ByteFault {
    pub place: usize,
}

// A run is refused for its bytes, or for what a field at a place holds.
#[derive(Clone, Copy)]
pub enum RunFault {
    Bytes(ByteFault),
    Content { refusal: Refusal, place: usize },
}

// A paper is refused for its bytes, for a head that is of another model, clock or run, or for a line or its conclusion at a place.
#[derive(Clone, Copy)]
pub enum PaperFault {
    Bytes(ByteFault),
    Foreign,
    Conclusion { refusal: Refusal, place: usize },
}

impl From<ByteFault> for RunFault {
    ghost from_gives = { λ e r. r ≡ Bytes e };

    fn from(fault: ByteFault) -> RunFault {
        RunFault::Bytes(fault)
    }
}

// The refusal, its layer and its place.
impl From<RunFault> for Fault {
    ghost from_gives = { λ e r. r ≡ run_fault e };

    fn from(fault: RunFault) -> Fault {
        match fault {
            RunFault::Bytes(e) => Fault {
                refusal: Refusal::Malformed,
                layer: Layer::RunBytes,
                place: e.place,
            },
            RunFault::Content { refusal, place } => Fault {
                refusal,
                layer: Layer::Content,
                place,
            },
        }
    }
}

impl From<ByteFault> for PaperFault {
    ghost from_gives = { λ e r. r ≡ paper.Bytes e };

    fn from(fault: ByteFault) -> PaperFault {
        PaperFault::Bytes(fault)
    }
}

// The refusal, its layer and its place; a paper's head is at the first byte.
impl From<PaperFault> for Fault {
    ghost from_gives = { λ e r. r ≡ paper_fault e };

    fn from(fault: PaperFault) -> Fault {
        match fault {
            PaperFault::Bytes(e) => Fault {
                refusal: Refusal::Malformed,
                layer: Layer::PaperBytes,
                place: e.place,
            },
            PaperFault::Foreign => Fault {
                refusal: Refusal::Foreign,
                layer: Layer::PaperBytes,
                place: 0,
            },
            PaperFault::Conclusion { refusal, place } => Fault {
                refusal,
                layer: Layer::Conclusion,
                place,
            },
        }
    }
}
