// Verdicts: two paths side by side, pivots, and what a verdict shows. There is no code here.

#![tactic(auto)]
