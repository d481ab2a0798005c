// Laws on lists, and on arrays with a count. No code: the definitions are in specs/, the laws in proofs/.
#![tactic(auto)]
