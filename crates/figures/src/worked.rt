// The table of figures.
ghost use Rattle.std.specs.Prelude.{◌≡◌, true, length};
ghost use Rattle.std.specs.List.{list_all};
ghost use Rattle.figures.specs.Figures.{figure_holds};
ghost use Rattle.figures.specs.Table.{table};

// How many figures the table has. By the rules' own definitions every one of them holds.
pub fn figure_count() -> u32
    ensures count { result ≡ length table }
    ensures hold { list_all figure_holds table ≡ true }
{
    10
}
