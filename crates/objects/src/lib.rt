// Theorems alone: what a load starts from, by its object and its sheet's edition, and what each of its elements holds then.
#![tactic(auto)]
