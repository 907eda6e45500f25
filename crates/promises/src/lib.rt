// No code: what the exported functions promise, in one place for those who prove it and for those who rest on it.
#![tactic(auto)]
