//! Laws of the parts list, as contracts.
ghost use Rattle.ato_writers.specs.PartsLaws.{LinesAreCsv, OneListOfParts, PartsReadBack};

/// The lines are what the default writer of comma-separated text writes.
pub fn lines_are_csv()
    ensures { LinesAreCsv }
{}

/// The default reader of comma-separated text reads the headings and the parts.
pub fn parts_read_back()
    ensures { PartsReadBack }
{}

/// Different lists of parts have different texts.
pub fn one_list_of_parts()
    ensures { OneListOfParts }
{}
