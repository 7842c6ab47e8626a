// What the head lines so far say.
ghost use Rattle.std.specs.Prelude.{◌≡◌, ◌≤◌};
ghost use Rattle.logs.specs.Reading.{allowed, heading_with, head_of};
ghost use Rattle.logs.specs.Sayable.{SaysSayable};

use crate::heads::{Head, NamedClock, NamedModel};
use crate::statements::Statement;
use crate::troubles::Expected;

// What is said so far, and how many processors the accesses name: 0 before the first access.
#[derive(Clone, Copy)]
pub struct Heading {
    pub model: Option<NamedModel>,
    pub clock: Option<NamedClock>,
    pub processors: Option<u8>,
    pub named: u8,
}

impl Heading {
    // With one more head line, if it may stand here: before the first access, and once.
    fn allowed(self, said: bool, twice: Expected, next: Heading) -> Result<Heading, Expected>
        ensures { result ≡ allowed self said twice next }
    {
        if self.named > 0 {
            return Err(Expected::HeadBefore);
        }
        if said {
            return Err(twice);
        }
        Ok(next)
    }

    // With what one more line says.
    #[tactic(auto, unfolding(crate::specs::Reading::heading_with))]
    pub(crate) fn with(self, statement: Statement) -> Result<Heading, Expected>
        requires { SaysSayable statement }
        ensures { result ≡ heading_with self statement }
    {
        match statement {
            Statement::Nothing => Ok(self),
            Statement::Model(model) => {
                let next = Heading {
                    model: Some(model),
                    ..self
                };
                self.allowed(self.model.is_some(), Expected::OneModel, next)
            }
            Statement::Clock(clock) => {
                let next = Heading {
                    clock: Some(clock),
                    ..self
                };
                self.allowed(self.clock.is_some(), Expected::OneClock, next)
            }
            Statement::Processors(count) => {
                let next = Heading {
                    processors: Some(count),
                    ..self
                };
                self.allowed(self.processors.is_some(), Expected::OneProcessors, next)
            }
            Statement::Access(entry) => Ok(Heading {
                named: self.named.max(entry.processor.saturating_add(1)),
                ..self
            }),
        }
    }

    // The head that is said in all.
    pub fn head(self) -> Head
        ensures said { result ≡ head_of self }
        ensures fits { result.processors ≤ 255 }
    {
        Head {
            model: self.model.unwrap_or(NamedModel::Sc),
            clock: self.clock.unwrap_or(NamedClock::Global),
            processors: self.processors.unwrap_or(self.named.max(1)),
        }
    }
}
