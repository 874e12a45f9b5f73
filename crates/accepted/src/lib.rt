// No code: specs/ proves that an accepted table is what the passes over its rows need.

#![tactic(auto)]
