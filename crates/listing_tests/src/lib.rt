// What an owner's terminal prints, against bytes that are written out by hand.
#![tactic(auto)]

#[cfg(test)]
mod days;
#[cfg(test)]
mod refusals;
