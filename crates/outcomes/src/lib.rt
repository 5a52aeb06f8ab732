// From what a call's code finds (refusals of checks, sizes, what the writer left) to the call's outcome, over any job: laws alone, cited by the crates of the calls.
#![tactic(auto)]
