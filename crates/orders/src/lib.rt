// Theorems alone: a store's elements may be written in any order, and two stores that share no byte may change places.
#![tactic(auto)]
