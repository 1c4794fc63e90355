// What is written as the covering of an order is shown as that order's table.
// Contract: each covering that is written is read as its order, and its lines are answered by the order's table.
#![tactic(auto)]

pub mod laws;
