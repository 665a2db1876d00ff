//! That the entries that are made are those of the assignments that count.
ghost use Rattle.ato_elab.specs.Counting.{EntriesCount, KeysStand, NothingOccursTwice};

/// What one pass over the statements of all occurrences holds is held for names of instances.
pub(crate) fn keys_stand()
    ensures { KeysStand }
{}

/// Where no fault of names stands, no occurrence stands twice.
pub(crate) fn nothing_occurs_twice()
    ensures { NothingOccursTwice }
{}

/// Where no fault of paths stands, the entries that are made from the assignments that count are those of the tree.
pub(crate) fn entries_count()
    ensures { EntriesCount }
{}
