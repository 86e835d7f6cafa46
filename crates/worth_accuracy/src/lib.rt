// How accurate the answers of the chain, of a burst, of the chain by an index and of the gimbal are, and whether their names are the true ones: laws, and no
// code.
#![tactic(auto)]
