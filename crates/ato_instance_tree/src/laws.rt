//! Laws of the definitions, as contracts.
ghost use Rattle.ato_instance_tree.specs.Depth.{NothingIsCut};
ghost use Rattle.ato_instance_tree.specs.Laws.{EffectiveIsLast, FirstFaultStands, LimitsAreKept, MembersAgree, NoNodeTwice, NodesAreMembers, OneTree, OneTreeFault, StatementsAreWalked, TargetsAreFound};

/// Two trees of one project and entry block say the same.
pub fn one_tree()
    ensures { OneTree }
{}

/// Where no fault of the tree stands, looking deeper finds no other node.
pub fn nothing_is_cut()
    ensures { NothingIsCut }
{}

/// No two nodes of a tree have one place.
pub fn no_node_twice()
    ensures { NoNodeTwice }
{}

/// A tree keeps the limits.
pub fn limits_are_kept()
    ensures { LimitsAreKept }
{}

/// The members of a type are what its statements declare.
pub fn members_agree()
    ensures { MembersAgree }
{}

/// Where no fault of the tree stands, the nodes are the root and the members of each instance that is a node.
pub fn nodes_are_members()
    ensures { NodesAreMembers }
{}

/// The assignment that counts for a name of an instance is the last one at it and around it.
pub fn effective_is_last()
    ensures { EffectiveIsLast }
{}

/// The fault of the tree that stands is the first one, in tree order.
pub fn first_fault_stands()
    ensures { FirstFaultStands }
{}

/// A project that has a tree has no fault of the tree.
pub fn one_tree_fault()
    ensures { OneTreeFault }
{}

/// The statement of an occurrence of a tree is that of the project's occurrence.
pub fn statements_are_walked()
    ensures { StatementsAreWalked }
{}

/// The target of a path is the node to which the path leads; a path that leads nowhere has none.
pub fn targets_are_found()
    ensures { TargetsAreFound }
{}
