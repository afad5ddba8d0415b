//! Tests of what no message to the program shows: texts that it never reads, and values that it never has. Those of calls
//! over a store stand in `checks/tests`, which are not proved.
#![tactic(auto)]

#[cfg(test)]
mod answers;
#[cfg(test)]
mod hours;
#[cfg(test)]
mod jobs;
#[cfg(test)]
mod lines;
