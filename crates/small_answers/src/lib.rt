// Laws over the definitions alone: every number of an answer fits its row.
#![tactic(auto)]
