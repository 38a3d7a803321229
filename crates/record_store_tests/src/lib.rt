// Cases for the two stores. Expected values are worked out by hand.
#![tactic(auto)]

#[cfg(test)]
mod capacity;
#[cfg(test)]
mod figures;
#[cfg(test)]
mod places;
