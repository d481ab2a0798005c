// The shopkeeper's guarantee over what a C program holds. No code.
#![tactic(auto)]
