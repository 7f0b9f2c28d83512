//! The functions of a module that are run: their form, and what they are as a program.
#![tactic(auto)]
