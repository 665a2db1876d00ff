//! That what is found by numbers is what is found by paths.
ghost use Rattle.ato_elab.specs.Standing.{TreesAreWhole};
ghost use Rattle.ato_elab.specs.Firsts.{StmtsAreWalked, FirstMarksAreFaults};
ghost use Rattle.ato_elab.specs.Landing.{SortsAgree, NamesAreFound, PathsAreFound, MarksAreFaults};

/// The sort of a node is that of its member.
pub(crate) fn sorts_agree()
    ensures { SortsAgree }
{}

/// A name is found as the member that it is.
pub(crate) fn names_are_found()
    ensures { NamesAreFound }
{}

/// What is found by numbers is what is found by paths.
pub(crate) fn paths_are_found()
    ensures { PathsAreFound }
{}

/// The first mark of a statement is its first fault.
pub(crate) fn marks_are_faults()
    ensures { MarksAreFaults }
{}

/// Where no fault of the tree stands, the tree is whole.
pub(crate) fn trees_are_whole()
    ensures { TreesAreWhole }
{}

/// The statements of a built tree's occurrences are those of the project's.
pub(crate) fn stmts_are_walked()
    ensures { StmtsAreWalked }
{}

/// The fault of the first mark is the first fault of paths.
pub(crate) fn first_marks_are_faults()
    ensures { FirstMarksAreFaults }
{}
