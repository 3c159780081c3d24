// Laws of the view against the book of the calls: what holds a stretch, and that the records tell of every limit laid. No code.
#![tactic(auto)]
