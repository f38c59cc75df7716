//! Laws of runs, each the contract of a function that does nothing.

ghost use Rattle.std.specs.Prelude.{◌≡◌, ℕ, ◌+◌, Some};
ghost use Rattle.runs.specs.Run.{Stepper, Moment, moment};

/// A run goes on from the moment that it came to: so many steps and so many more are those steps together.
pub fn runs_go_on<M>()
    ensures { (step : Stepper M) (n k : ℕ) (c d : Moment M) → moment step n c ≡ Some d → moment step (n + k) c ≡ moment step k d }
{}
