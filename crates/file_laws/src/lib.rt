// No code: what the bytes of a file say, what a read of them leaves, and that a map comes through a file as it was.
#![tactic(auto)]
