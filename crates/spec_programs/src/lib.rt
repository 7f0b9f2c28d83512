//! The program that an admitted module is: its functions and classes with their contracts.
#![tactic(auto)]
