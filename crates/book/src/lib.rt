// The book of a path's calls (R86), and demand 3 (R90): definitions and theorems, no code.
#![tactic(auto)]
