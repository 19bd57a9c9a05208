// Laws about the definitions of the crate alpha, and the definitions that they need; there is no code here.
#![tactic(auto)]
