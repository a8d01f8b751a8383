// What a text is that has required lines and then entries, as mapping and scale files have: definitions and theorems only.
#![tactic(auto)]
