//! Tests of the words of the commands: the values of lists of words, and the lists that are of no
//! form.
#![tactic(auto)]

#[cfg(test)]
mod forms;
#[cfg(test)]
mod refusals;
#[cfg(test)]
mod word_lists;
