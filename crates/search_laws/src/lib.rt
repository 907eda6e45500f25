// No code: a search finds what is there and opens what it must, as theorems of the definitions of `rules`, for the crates above.
#![tactic(auto)]
