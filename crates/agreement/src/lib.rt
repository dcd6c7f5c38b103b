// Theorems over the definitions of carrying out, translating and running: a sheet's tape does what the sheet does.
#![tactic(auto)]
