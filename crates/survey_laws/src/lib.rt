// No code: the exact values of doubles and the windows of surveys, as theorems of the definitions of `rules`, for the crates above.
#![tactic(auto)]
