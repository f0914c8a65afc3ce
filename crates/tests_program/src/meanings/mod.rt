//! Tests of the rounds that work out the meaning of a script.

mod meaning_tests;
mod path_faults_tests;
