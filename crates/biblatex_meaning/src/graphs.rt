//! What there is for all references between numbers.

ghost use Rattle.biblatex_meaning.specs.Graphs.{EachGraphHasMarks, EachAcyclicGraphHasDepths, EachGraphHasAnOrder, EachListOfDefinitionsHasFlags};

/// Whether a number reaches itself is decided, for all references.
pub fn each_graph_has_marks()
    ensures { EachGraphHasMarks }
{}

/// Where no number reaches itself, each has a depth, which is more than those of all that it refers to.
pub fn each_acyclic_graph_has_depths()
    ensures { EachAcyclicGraphHasDepths }
{}

/// The numbers have an order in which each that does not reach itself stands after all that it refers to.
pub fn each_graph_has_an_order()
    ensures { EachGraphHasAnOrder }
{}

/// Definitions of abbreviations have flags that say which of them reach themselves.
pub fn each_list_of_definitions_has_flags()
    ensures { EachListOfDefinitionsHasFlags }
{}
