// Document 01's cases as one table, with one theorem over the whole of it. No code.
#![tactic(auto)]
