//! Tests of the claim table: a worked row of two chairs, and 8 threads that share 10,000 slots.
//! What each call does is proved in `claim_table`; here it is seen that calls take slots at all, and in what order.
#![tactic(auto)]

#[cfg(test)]
mod rows;
#[cfg(test)]
mod threads;
