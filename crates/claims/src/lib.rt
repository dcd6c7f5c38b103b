// Theorems over the definitions alone: which refusals each routine gives, what a refusal leaves, and what an accepted sheet keeps to.
#![tactic(auto)]
