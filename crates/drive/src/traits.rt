// A motor's drive, as everything above it sees it.
ghost use Rattle.std.specs.Prelude.{◌≡◌, ℕ, ℤ, ◌≤◌, true, false, is_ok};
ghost use Rattle.drive.specs.Positions.{is_position};
ghost use Rattle.drive.specs.Drives.{DriveMeans, Moved, landing, setting, with_trip};

use crate::fault::DriveFault;

pub trait Drive {
    // The most steps that this kind of drive goes at once.
    const G: u32;

    ghost G: { ℕ };

    // Its place, and whether it is tripped.
    ghost means: { Self → DriveMeans };

    // What one accepted advance makes of the whole drive, beyond what its meaning says.
    ghost Advanced: { Self → ℤ → Self → Type 0 };

    // Goes `n` steps at once, clockwise where `n` is positive.
    fn advance(&mut self, n: i32) -> Result<(), DriveFault>
        ensures moved { Moved (means self.old) (landing G (means self.old) n) tt result (means self.new) }
        ensures advanced { is_ok result ≡ true → Advanced self.old n self.new }
        ensures refused { is_ok result ≡ false → self.new ≡ self.old };

    // Calls the place where it stands `p`.
    fn set(&mut self, p: i32) -> Result<(), DriveFault>
        ensures moved { Moved (means self.old) (setting p) tt result (means self.new) }
        ensures refused { is_ok result ≡ false → self.new ≡ self.old };

    fn trip(&mut self)
        ensures tripped { means self.new ≡ with_trip (means self.old) true };

    fn clear(&mut self)
        ensures cleared { means self.new ≡ with_trip (means self.old) false };

    fn place(&self) -> i32
        ensures { result ≡ (means self.now).place };

    fn tripped(&self) -> bool
        ensures { result ≡ (means self.now).tripped };

    ghost bounded: { (1 ≤ G) × (G ≤ 200) };

    ghost placed: { (d : Self) → is_position (means d).place ≡ true };
}
