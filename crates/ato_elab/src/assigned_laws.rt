//! That the assignments that are held are those that count.
ghost use Rattle.ato_elab.specs.Holding.{AssignmentsCount};

/// What one pass over the statements of all occurrences holds are the assignments that count.
pub(crate) fn assignments_count()
    ensures { AssignmentsCount }
{}
