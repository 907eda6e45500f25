// No code: the words of a pool and the pool that is read from them, for the crates above.
#![tactic(auto)]
