//! Laws of the definitions, as contracts.
ghost use Rattle.ato_links.specs.ByNumbers.{NetsByNumbers};
ghost use Rattle.ato_links.specs.Joins.{OneClasses, SameNumberIsJoined};
ghost use Rattle.ato_links.specs.LinkFaults.{FirstOfBoth};
ghost use Rattle.ato_links.specs.Linked.{FaultByTree, OneLinkFault};
ghost use Rattle.ato_links.specs.Nets.{NetsShare, NoPinTwice, PinsStandInParts};
ghost use Rattle.ato_links.specs.NodeJoins.{LeastAreClasses};
ghost use Rattle.ato_links.specs.Parts.{BlocksHaveNames, DesignatorsDiffer, EachPrefixIsOne, NamesAreInTable, PartsHaveTypes};
ghost use Rattle.ato_links.specs.Whole.{JoinsAreNodes, LinksArePlaced, LinksAreWhole};

/// The first fault of paths and links is the earlier of the first ones of both.
pub fn first_of_both()
    ensures { FirstOfBoth }
{}

/// Two nodes have one number exactly where they are joined.
pub fn same_number_is_joined()
    ensures { SameNumberIsJoined }
{}

/// There is one list of classes at most.
pub fn one_classes()
    ensures { OneClasses }
{}

/// The least numbers by the joins of a project are those of its classes.
pub fn least_are_classes()
    ensures { LeastAreClasses }
{}

/// Each pin of a loaded project stands in a part.
pub fn pins_stand_in_parts()
    ensures { PinsStandInParts }
{}

/// No two pins of a loaded project have one component and one label.
pub fn no_pin_twice()
    ensures { NoPinTwice }
{}

/// In a loaded project two pins share a net exactly where they are joined, and each pin stands in exactly one net.
pub fn nets_share()
    ensures { NetsShare }
{}

/// The nets that the numbers of the classes make are those of the project.
pub fn nets_by_numbers()
    ensures { NetsByNumbers }
{}

/// The name of each block of a loaded project is in the table.
pub fn blocks_have_names()
    ensures { BlocksHaveNames }
{}

/// Each part of a loaded project has a type with a name.
pub fn parts_have_types()
    ensures { PartsHaveTypes }
{}

/// Each name in the path of a node of a tree is in the table.
pub fn names_are_in_table()
    ensures { NamesAreInTable }
{}

/// Where no fault of paths stands, the prefix of each instance of a tree is one.
pub fn each_prefix_is_one()
    ensures { EachPrefixIsOne }
{}

/// Where no fault of paths stands, no two parts of a tree have one designator.
pub fn designators_differ()
    ensures { DesignatorsDiffer }
{}

/// The fault that stands is the first one of links, where it stands in an occurrence before that of the tree's first fault, else that one.
pub fn fault_by_tree()
    ensures { FaultByTree }
{}

/// A project whose nodes have classes has no fault of paths and links.
pub fn one_link_fault()
    ensures { OneLinkFault }
{}

/// Where no fault of the tree stands, going deeper finds no other link of two nodes.
pub fn links_are_whole()
    ensures { LinksAreWhole }
{}

/// Where no fault of the tree stands, what the links of two nodes join are nodes.
pub fn links_are_placed()
    ensures { LinksArePlaced }
{}

/// Where no fault of the tree stands, whatever the connections of a project join is a node.
pub fn joins_are_nodes()
    ensures { JoinsAreNodes }
{}
