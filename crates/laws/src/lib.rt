// Laws only: what follows from the definitions. See specs/.
#![tactic(auto)]
