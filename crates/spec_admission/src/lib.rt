//! Which contents are admitted, and why the others are refused.
#![tactic(auto)]
