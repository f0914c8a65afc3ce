//! Tests of the pool of ready items.

mod offers_tests;
mod pool_tests;
