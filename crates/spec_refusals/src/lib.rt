//! Which of several refusals is told: the one with the smallest line, and at one line the one with the smallest number.
#![tactic(auto)]
