// No code: laws of the definitions of `rules`, for the crates above.
#![tactic(auto)]
