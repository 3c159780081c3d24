// What the planner says in words.
#![tactic(auto)]

pub mod outcomes; // a refusal: question, place, and what the question asks
pub mod fields; // a field that cannot be read
pub mod lines; // the call that a line is, and a line that cannot be read
pub mod places; // lines and links of a file, by their numbers
pub mod clauses; // which clause of question 6 a link fails
pub mod refusals; // why a call was refused: the link, its line, and what is wrong with it
pub mod warnings; // lines that can be read, and that a surveyor would want a word about
