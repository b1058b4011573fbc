// What a drive moves by its steps, beside counting them: a direction line, or the phase of its coils.
ghost use Rattle.std.specs.Prelude.{◌≡◌, ℕ, ℤ, ◌≤◌};

pub trait Output {
    // The most steps that it is moved by at once.
    const G: u32;

    ghost G: { ℕ };

    // What it becomes by so many steps.
    ghost moved: { Self → ℤ → Self };

    fn move_by(&mut self, n: i32)
        ensures { self.new ≡ moved self.old n };

    ghost bounded: { (1 ≤ G) × (G ≤ 200) };
}
