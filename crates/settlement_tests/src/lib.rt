// Tables of cases for the settlement of an hour. Expected values are worked out by hand.
#![tactic(auto)]

#[cfg(test)]
mod hours;
#[cfg(test)]
mod limits;
#[cfg(test)]
mod refusals;
#[cfg(test)]
mod regions;
#[cfg(test)]
mod rounding;
#[cfg(test)]
mod scenarios;
