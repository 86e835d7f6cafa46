// The bench set: document 01's cases A to O, and P to W for the requests since, as one table under one statement, without code.
#![tactic(auto)]
