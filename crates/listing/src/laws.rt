// What the listing's definitions come to.
ghost use Rattle.listing.specs.Laws.{CutAtFirst, EveryRow};

// An input is cut at its first empty line.
pub fn input_is_cut_at_first_empty_line()
    ensures { CutAtFirst }
{}

// A row that is listed is held, broken, open or long.
pub fn every_row_is_ruled()
    ensures { EveryRow }
{}
