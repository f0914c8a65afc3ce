//! The fact base of the meaning of a script: facts, block instances and closed arrays by place, and the evaluation of
//! expressions over them.
#![tactic(auto)]

pub mod evaluation;
pub mod fact_base;
pub mod facts;
pub mod first_writes;
pub mod instances;
pub mod laws;
pub mod writes;
