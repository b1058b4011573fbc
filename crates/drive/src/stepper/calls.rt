// What a drive does that moves an output.
ghost use Rattle.std.specs.Prelude.{◌≡◌, true, false, is_ok};
ghost use Rattle.drive.specs.Drives.{Moved, landing as landing_of, setting as setting_of, with_trip, at_rest};
ghost use Rattle.drive.specs.Steppers.{stepper_means, output_of, output_after};
ghost use Rattle.std.proofs.Common.{rules};

use super::Stepper;
use crate::fault::DriveFault;
use crate::output::Output;
use crate::position::setting;
use crate::traits::Drive;

impl<O: Output> Stepper<O> {
    // At place 0, not tripped.
    pub(crate) fn at_rest(output: O) -> Self
        ensures means { stepper_means result ≡ at_rest }
        ensures output { output_of result ≡ output }
    {
        Stepper {
            place: 0,
            tripped: false,
            output,
        }
    }

    pub(crate) fn output(&self) -> &O
        ensures { result.now ≡ output_of self.now }
    {
        &self.output
    }

    // Where it lands by `n`, or why it refuses.
    fn landing(&self, n: i32) -> Result<i32, DriveFault>
        ensures { result ≡ landing_of O.G (stepper_means self.now) n }
    {
        if self.tripped {
            return Err(DriveFault::Tripped);
        }
        if n.unsigned_abs() > O::G {
            return Err(DriveFault::TooFar);
        }
        setting(self.place + n)
    }
}

// A set, a trip and a clear each promise that the output stays: they are calls of the whole drive, whose contracts alone say so.
impl<O: Output> Drive for Stepper<O> {
    const G: u32 = O::G;

    ghost G = { O.G };

    ghost means = { stepper_means };

    ghost Advanced = { λ before n after. output_of after ≡ O.moved (output_of before) n };

    ghost bounded = { O.bounded };

    ghost placed = { Prim.search rules };

    fn advance(&mut self, n: i32) -> Result<(), DriveFault>
        ensures moved { Moved (stepper_means self.old) (landing_of O.G (stepper_means self.old) n) tt result (stepper_means self.new) }
        ensures advanced { is_ok result ≡ true → output_of self.new ≡ O.moved (output_of self.old) n }
        ensures refused { is_ok result ≡ false → self.new ≡ self.old }
        ensures output { output_of self.new ≡ output_after O.G O.moved self.old n }
    {
        self.place = self.landing(n)?;
        self.output.move_by(n);
        Ok(())
    }

    fn set(&mut self, p: i32) -> Result<(), DriveFault>
        ensures moved { Moved (stepper_means self.old) (setting_of p) tt result (stepper_means self.new) }
        ensures refused { is_ok result ≡ false → self.new ≡ self.old }
        ensures output { output_of self.new ≡ output_of self.old }
    {
        self.place = setting(p)?;
        Ok(())
    }

    fn trip(&mut self)
        ensures tripped { stepper_means self.new ≡ with_trip (stepper_means self.old) true }
        ensures output { output_of self.new ≡ output_of self.old }
    {
        self.tripped = true;
    }

    fn clear(&mut self)
        ensures cleared { stepper_means self.new ≡ with_trip (stepper_means self.old) false }
        ensures output { output_of self.new ≡ output_of self.old }
    {
        self.tripped = false;
    }

    fn place(&self) -> i32 {
        self.place
    }

    fn tripped(&self) -> bool {
        self.tripped
    }
}
