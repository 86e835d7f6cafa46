// What an identification is worth against the true stars of a frame: laws, and no code.
#![tactic(auto)]
