// The mathematics of trees: positions, the runs between letters, the first tree and whether there is another. See specs/.
#![tactic(auto)]
