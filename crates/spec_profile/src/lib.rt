//! Why a module is refused whose contract lines are right, as a definition.
#![tactic(auto)]
