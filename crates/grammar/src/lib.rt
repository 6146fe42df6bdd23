// The laws of patterns: one reading, the place of a mistake, bounds, the numbering of marks. See specs/.
#![tactic(auto)]
