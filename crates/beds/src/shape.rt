// A profile by what it is made of, as a bed names it.
ghost use Rattle.std.specs.Prelude.{[]};
ghost use Rattle.bed.specs.declared.kind.BaseProfile.TheVariants as base;
ghost use Rattle.beds.specs.Choices.{Shape, smoothed_shape};
ghost use Rattle.smoothing.specs.Smoothing.{length_over};

use profile::creep::Creep;
use profile::traits::Profile;
use ramp::ramp::Ramp;
use smoothing::smoothed::Smoothed;

pub trait Shaped: Profile {
    ghost shape: { Self → Shape };
}

impl Shaped for Creep {
    ghost shape = { λ _. record { base = base.Creep; lengths = [] } };
}

impl Shaped for Ramp {
    ghost shape = { λ _. record { base = base.Ramp; lengths = [] } };
}

impl<P: Shaped> Shaped for Smoothed<P> {
    ghost shape = { λ s. smoothed_shape (length_over s) (P.Shaped.shape s.below) };
}
