// The definitions of matrices by value, of any size: specs/Matrix.antt and specs/Flat.antt. The code that is equal to them is in the crates above.
#![tactic(auto)]
