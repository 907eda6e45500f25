// No code: the customer's three demands, stated of what the exported functions promise.
#![tactic(auto)]
