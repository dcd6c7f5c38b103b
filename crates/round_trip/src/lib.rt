// Theorems over the definitions of reading and writing: what is written reads back, and what was read writes back.
#![tactic(auto)]
