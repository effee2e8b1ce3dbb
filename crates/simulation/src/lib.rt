//! The run of a memory that holds a program is the run of the program: Go passes the gates, and ends, as the plain
//! machine of stretches does. The theorems are `go_runs` and `go_from_runs` of `proofs/Go.antt`.
#![tactic(auto)]
