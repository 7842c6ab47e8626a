// The search for a legal order: records are placed one by one, and taken back where none may follow. And whether an order is legal.
#![tactic(auto)]

mod candidates;
pub mod orders;
pub mod searches;
