//! That a text in which tokens are written with separators between them has these tokens; and that a listing without
//! names is such a text.
#![tactic(auto)]
