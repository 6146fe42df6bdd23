// Laws of binary digits, in specs/ and proofs/. There is no code here.
#![tactic(auto)]
