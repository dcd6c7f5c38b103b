// Document 01's strips: specs/Strips.antt.
#![tactic(auto)]
