// The Unicode Standard's own words for what `chars` reads: D86 and D93b, and laws that the definitions of `chars` are these. No code.
#![tactic(auto)]
