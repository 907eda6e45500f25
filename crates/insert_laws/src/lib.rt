// No code: inserting keeps the tree, for any lawful choice of child and any lawful split.
#![tactic(auto)]
