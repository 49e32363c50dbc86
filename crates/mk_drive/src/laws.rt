//! The laws of the definitions. Each is the contract of a function that takes nothing and gives nothing.

ghost use Rattle.std.specs.Prelude.{◌≡◌, ◌↔◌, ℕ, List, false, map, All};
ghost use Rattle.mk_model.specs.CoreStates.{CoreState};
ghost use Rattle.mk_model.specs.Events.{Event, HappenInTurn};
ghost use Rattle.mk_model.specs.Legal.{IsLegal};
ghost use Rattle.mk_model.specs.Programs.{Stage, Drives};
ghost use Rattle.mk_drive.specs.Halting.{ScheduledTurn, DrivesWithRefusals};

/// Turns at some of which memory is refused happen by events, and so keep a state legal. Without a refusal they are the turns
/// of the workers alone.
pub fn refusals_happen_by_events()
    ensures events { (n : ℕ) (priority : List ℕ) (state : CoreState) (stages : List Stage)
        (turns : List ScheduledTurn) (after : CoreState) (last : List Stage) →
        DrivesWithRefusals n priority state stages turns after last →
        (events : List Event) × HappenInTurn n priority state events after }
    ensures legal { (n : ℕ) (priority : List ℕ) (state : CoreState) (stages : List Stage)
        (turns : List ScheduledTurn) (after : CoreState) (last : List Stage) →
        IsLegal n priority state → DrivesWithRefusals n priority state stages turns after last →
        IsLegal n priority after }
    ensures without { (n : ℕ) (priority : List ℕ) (state : CoreState) (stages : List Stage)
        (turns : List ScheduledTurn) (after : CoreState) (last : List Stage) →
        All (λ turn. turn.refused ≡ false) turns →
        (DrivesWithRefusals n priority state stages turns after last
        ↔ Drives n priority state stages (map (λ turn. turn.worker) turns) after last) }
{}
