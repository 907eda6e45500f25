// No code: the tree that theorems want, read off a sound pool, for the crates above.
#![tactic(auto)]
