//! What workers ask of the parts of a whole.
ghost use Rattle.std.specs.Prelude.{◌≡◌, ℕ, IfOk, IfErr};

/// A part of a whole, on which steps are taken apart from the other parts.
pub trait Part<T, Y> {
    /// The step may get this reply, and leave the part so.
    ghost takes: { Self → T → Y → Self → Type 0 };

    /// The step with this mark goes to this part.
    ghost fits: { Self → T → ℕ → Type 0 };

    /// Takes a step, whose dealer knows this mark of it. A step is refused where there is no memory for it.
    fn take(&mut self, step: T, mark: u64) -> Result<Y, T>
        requires { fits self.old step mark }
        ensures taken { IfOk result (λ reply. takes self.old step reply self.new) }
        ensures refused { IfErr result (λ back. (back ≡ step) × (self.new ≡ self.old)) };

    /// What is taken changes nothing of where a step goes.
    ghost stays: { (p q : Self) (s t : T) (m : ℕ) (y : Y) → takes p s y q → fits p t m → fits q t m };
}

/// Knows to which part a step goes.
pub trait Dealer<T> {
    /// The number of the step's part.
    ghost goes: { Self → T → ℕ };

    /// The step may get this mark.
    ghost marks: { Self → T → ℕ → Type 0 };

    /// The step's mark, and the number of its part.
    fn deal(&self, step: &T) -> (u64, usize)
        ensures mark { marks self.now step.now result.0 }
        ensures part { result.1 ≡ goes self.now step.now };
}
