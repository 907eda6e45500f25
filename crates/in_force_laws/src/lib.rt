// No code: the records in force, and that every search shows those of them that meet its window.
#![tactic(auto)]
