//! Laws of the plain machine, each the contract of a function that does nothing.
ghost use Rattle.plain_pascal.specs.Laws.{AssignmentsKeep, FirstRunsAreStretches, FirstRunsRest, LinksLead, LoadedStands, NextRunsAreStretches, ResolvedOrder, RunsAreStretches, RunsKeep, RunsRest, RunsSplit, StepsKeep};

/// A run of `j + k` gates is one of `j` gates, and then one of `k` gates where it was stopped.
pub fn runs_split()
    ensures { RunsSplit }
{}

/// A run from a state in order comes to one, at a gate, at the end or in an error; so does the first run of a program.
pub fn runs_rest()
    ensures law { RunsRest }
    ensures first { FirstRunsRest }
{}

/// Small steps from gate to gate are stretches between parts of blocks, each of which has the parts and the links that
/// such a run comes to.
pub fn runs_are_stretches()
    ensures law { RunsAreStretches }
    ensures first { FirstRunsAreStretches }
    ensures following { NextRunsAreStretches }
    ensures links { LinksLead }
{}

/// A loaded program is in a state in order. Each step of a program in order keeps a state in order,
/// and so do a run and an assignment of each kind. A resolved program whose operations have parts of
/// their kinds is in order.
pub fn steps_keep()
    ensures steps { StepsKeep }
    ensures loaded { LoadedStands }
    ensures runs { RunsKeep }
    ensures order { ResolvedOrder }
    ensures assignments { AssignmentsKeep }
{}
