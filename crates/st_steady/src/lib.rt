// A machine on a steady program never strands: the tests that it makes of the store before a send or a loop never fail. So its run is the run of the rules, without exception.
#![tactic(auto)]

mod steady;

pub use steady::a_steady_machine_never_strands;
