// A drive that counts its steps and moves an output by them.
ghost use Rattle.std.specs.Prelude.{◌≡◌, true};
ghost use Rattle.drive.specs.Positions.{is_position};

mod calls;

#[derive(Drop)]
pub struct Stepper<O> {
    place: i32,
    tripped: bool,
    output: O,
    ghost placed: { is_position place ≡ true },
}
