// The law of runs: what holds of every sequence of calls, from power-up on.
#![tactic(auto)]

pub mod examples;

ghost use Rattle.std.specs.Prelude.{◌≡◌, true};
ghost use Rattle.law.specs.Runs.{RunsAreLawful};

// Whoever makes calls of an axis, in any order, has made a lawful run.
pub fn runs_are_lawful() -> bool
    ensures lawful { RunsAreLawful }
    ensures answer { result ≡ true }
{
    true
}
