//! That a tree which some tokens spell is spelled by its own tokens, and that each of these is one of those.
#![tactic(auto)]
