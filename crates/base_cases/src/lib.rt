//! Calls of `dice_base` and of `script_lines`, as a caller writes them.
#![tactic(auto)]

#[cfg(test)]
mod cases;
