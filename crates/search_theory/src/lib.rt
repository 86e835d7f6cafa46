// Assignments of stars to directions, their order by a ranking, and the search for the first that fits: definitions and laws, and no code.
#![tactic(auto)]
