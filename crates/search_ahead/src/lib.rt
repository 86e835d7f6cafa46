// Looks ahead, by which the search leaves a branch early. A direction is closed where no assignment that passes and begins with the words chosen
// gives it a star; two directions are apart where none gives both a star. Marks of the directions and of their pairs are 0 only where that is
// known, and a mark that is not 0 says nothing: so a look may be left out where it does not pay, and the search stays exact.
// Stays: numbers and no bools, since the public calls take every number and keep their promise for each: 0 is known, any other number says nothing.
#![tactic(auto)]

pub mod bound;
pub mod forward;
pub mod narrow;
pub mod pairs;
