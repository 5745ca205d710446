//! The parts of which a machine is made where it runs: the world, the own states of the domains, what domains share, and what the two
//! stores hold. Here stand the machine for which these parts stand, how they fit each other, and what a change of the parts is to the
//! machine: of one of them (`parts`), of the running segment (`running`), by a domain that is opened (`opened`), and by one that ends
//! (`ended`). There is no code here but that of laws: functions that do nothing, whose contracts are theorems on the definitions.
#![tactic(auto)]

pub mod ended;
pub mod opened;
pub mod parts;
pub mod running;
