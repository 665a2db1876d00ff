//! Laws of the definitions, as contracts.
ghost use Rattle.ato_connections.specs.Placing.{EndsAgree, EntriesAgree, MembersStand, PairsAgree, PathsAgree, SidesAgree};

/// The member of a name stands where it is found by the name's text.
pub(crate) fn members_stand()
    ensures { MembersStand }
{}

/// The links of two instances are the same.
pub(crate) fn pairs_agree()
    ensures { PairsAgree }
{}

/// The links of two sides are the same.
pub(crate) fn sides_agree()
    ensures { SidesAgree }
{}

/// The end of a path is the same side.
pub(crate) fn paths_agree()
    ensures { PathsAgree }
{}

/// The links of two ends are the same.
pub(crate) fn ends_agree()
    ensures { EndsAgree }
{}

/// The links of an occurrence by the numbers of nodes are those by their places.
pub(crate) fn entries_agree()
    ensures { EntriesAgree }
{}
