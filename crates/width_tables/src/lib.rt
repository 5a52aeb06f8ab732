// A change of the table of widths changes no call that is lent only characters as wide as before: definitions and laws, no functions.
#![tactic(auto)]
