// The first of some numbers that passes a test, and how many do: theory without code.
#![tactic(auto)]
