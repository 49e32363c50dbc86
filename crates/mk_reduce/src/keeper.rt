ghost use Rattle.std.specs.Prelude.{◌≡◌, ◌++◌, ◌∷◌, [], List, OnOk, OnErr, ⊤};
ghost use Rattle.mk_reduce.specs.declared.step.Step.{Step};

use crate::step::Step;
use mk_model::NoMemory;

/// What keeps the steps of a reduction, one behind another.
pub(crate) trait StepKeeper {
    /// Holds of the steps that it may have kept.
    ghost has: { Self → List Step → Type 0 };

    /// Keeps a step behind the others. It has the same steps where there is no memory.
    fn keep(&mut self, step: Step) -> Result<(), NoMemory>
        ensures ok { OnOk result ((steps : List Step) → has self.old steps → has self.new (steps ++ step ∷ [])) }
        ensures err { OnErr result ((steps : List Step) → has self.old steps → has self.new steps) };

    /// Lets the last step go.
    fn take_back(&mut self)
        ensures { (steps : List Step) (step : Step) → has self.old (steps ++ step ∷ []) → has self.new steps };
}

/// A trace: it keeps each step.
impl StepKeeper for Vec<Step> {
    ghost has = { λ trace steps. trace.items ≡ steps };

    fn keep(&mut self, step: Step) -> Result<(), NoMemory> {
        self.push(step)?;
        Ok(())
    }

    fn take_back(&mut self) {
        let _ = self.pop();
    }
}

/// Keeps no step, so any may have been.
#[derive(Drop)]
pub(crate) struct NoTrace;

impl StepKeeper for NoTrace {
    ghost has = { λ _ _. ⊤ };

    fn keep(&mut self, _step: Step) -> Result<(), NoMemory> {
        Ok(())
    }

    fn take_back(&mut self) {}
}
