// Laws of speed points: what laying a limit and dropping points do. No code.
#![tactic(auto)]
