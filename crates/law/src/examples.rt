// Short runs that meet what the clauses of the law speak of.
ghost use Rattle.std.specs.Prelude.{◌≡◌, true, length};
ghost use Rattle.std.specs.List.{list_all};
ghost use Rattle.law.specs.Examples.{example_holds, examples};

// How many examples there are. Every one of them holds, by the law's own definitions.
pub fn example_count() -> u32
    ensures count { result ≡ length examples }
    ensures hold { list_all example_holds examples ≡ true }
{
    10
}
