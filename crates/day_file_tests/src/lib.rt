// Small day files, worked out by hand, read and written.
#![tactic(auto)]

#[cfg(test)]
mod files;
