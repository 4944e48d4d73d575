// Definitions and laws that several crates cite: lists, texts, tests, computed tables and parts of what is lent. No code.
#![tactic(auto)]
